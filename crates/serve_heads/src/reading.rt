//! The heads of all files.
ghost use Rattle.std.specs.Prelude.{◌≡◌, length, IfOk, IfErr};
ghost use Rattle.serve_heads.specs.Heads.{HeadsAreRead};
ghost use Rattle.serve_heads.specs.Gathered.{AreGathered, HasRoom};

use crate::gathering::{Gathered, guilds_in};
use crate::script_file::{ScriptFile, join_files};
use file_script::{FileScript, read_head};
use gate_outside::streams::Source;
use session_core::Bot;
use snowflake_id::Snowflake;
use std::alloc::{AllocError, Global};

/// The files, and the bots and guilds that they declare.
#[derive(Drop)]
pub struct Heads<S> {
    /// The files, in their order.
    pub files: Vec<ScriptFile<S>>,
    /// The bots, in the order of the files and their lines, as often as they stand there.
    pub bots: Vec<Bot>,
    /// The guilds, each once, in the order of the files and their lines.
    pub guilds: Vec<Snowflake>,
}

// Reads the head of each file.
fn read_each<S: Source>(alloc: Global, sources: &mut [S]) -> Result<Gathered, AllocError>
    ensures { IfOk result (λ g. AreGathered S.left S.faults sources.old sources.new g.scripts.items g.bots.items g.guilds.keys) }
{
    let mut gathered = Gathered::new(alloc);
    for source in sources.iter_mut() {
        let head = read_head(alloc, source)?;
        gathered.add_head(head)?;
    }
    Ok(gathered)
}

// Reads the head of each file, and makes the room for all files.
fn read_all<S: Source + Drop>(
    alloc: Global,
    sources: &mut [S],
) -> Result<(Heads<S>, Vec<FileScript>), AllocError>
    ensures gathered { IfOk result (λ read. AreGathered S.left S.faults sources.old sources.new read.1.items read.0.bots.items read.0.guilds.items) }
    ensures room { IfOk result (λ read. HasRoom (length sources.new) read.0.files) }
{
    let files = Vec::with_capacity(alloc, sources.len())?;
    let Gathered {
        scripts,
        bots,
        guilds,
    } = read_each(alloc, sources)?;
    let guilds = guilds_in(alloc, &guilds)?;
    let heads = Heads {
        files,
        bots,
        guilds,
    };
    Ok((heads, scripts))
}

/// Reads each source, in order, up to the first step line of its file, the first line that is refused,
/// a failure or its end, and gathers the bots and guilds of the lines before that.
///
/// # Errors
/// Out of memory: the sources come back, in their order.
pub fn read_heads<S: Source + Drop>(alloc: Global, mut sources: Vec<S>) -> Result<Heads<S>, Vec<S>>
    ensures heads { IfOk result (λ h. HeadsAreRead S.left S.faults sources.items h.files.items h.bots.items h.guilds.items) }
    ensures back { IfErr result (λ back. length back.items ≡ length sources.items) }
{
    match read_all(alloc, &mut sources) {
        Ok((mut heads, scripts)) => {
            heads.files = join_files(sources, scripts, heads.files);
            Ok(heads)
        }
        Err(AllocError) => Err(sources),
    }
}
