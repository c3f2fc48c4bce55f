//! The sources of files that are not served.

ghost use Rattle.std.specs.Prelude.{◌≡◌, ◌≤◌, [], length};
ghost use Rattle.std.specs.Vec.{vec_capacity};

use serve_heads::ScriptFile;
use team_run::add;

// The source of a file that is not served. Its script is dropped.
fn source_of<S>(file: ScriptFile<S>) -> S {
    let ScriptFile { source, script } = file;
    drop(script);
    source
}

/// The sources of files that are not served, in their order, in a list that has room for them.
pub(crate) fn sources_of<S>(mut files: Vec<ScriptFile<S>>, mut sources: Vec<S>) -> Vec<S>
    requires empty { sources.items ≡ [] }
    requires room { length files.items ≤ vec_capacity sources }
    ensures { length result.items ≡ length files.items }
{
    files.reverse();
    while let Some(file) = files.pop() {
        add(&mut sources, source_of(file));
    }
    files.destroy_empty();
    sources
}
