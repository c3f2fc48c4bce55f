//! A file of a script.
ghost use Rattle.std.specs.Prelude.{◌≡◌, ◌≤◌, [], length, map};
ghost use Rattle.std.specs.Vec.{vec_len, vec_capacity};
ghost use Rattle.serve_heads.specs.Gathered.{source_of, script_of};

use file_script::FileScript;
use team_run::add;

/// A file of a script: its source, which was read to the end of the head, and the script that follows.
#[derive(Drop)]
pub struct ScriptFile<S> {
    /// What the rest of the file is read from.
    pub source: S,
    /// The script, which begins with what ended the head.
    pub script: FileScript,
}

/// Puts each source beside its script, in their order. It does not allocate: the caller has made the
/// room.
pub fn join_files<S>(
    mut sources: Vec<S>,
    mut scripts: Vec<FileScript>,
    mut files: Vec<ScriptFile<S>>,
) -> Vec<ScriptFile<S>>
    requires alike { length scripts.items ≡ length sources.items }
    requires empty { files.items ≡ [] }
    requires room { vec_len sources ≤ vec_capacity files }
    ensures sources { map source_of result.items ≡ sources.items }
    ensures scripts { map script_of result.items ≡ scripts.items }
{
    sources.reverse();
    scripts.reverse();
    while let Some(source) = sources.pop() {
        let Some(script) = scripts.pop() else {
            unreachable!()
        };
        add(&mut files, ScriptFile { source, script });
    }
    sources.destroy_empty();
    scripts.destroy_empty();
    files
}
