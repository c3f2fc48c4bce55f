//! The head of a file: the bots and guilds that it declares before its first step line.
ghost use Rattle.std.specs.Prelude.{◌≡◌, ◌↔◌, ℕ, List, [], Err, IsTrue, IfOk, MatchResult};
ghost use Rattle.std.specs.Io.KnownBytes.{Consumes};
ghost use Rattle.file_script.specs.Reads.{HasGiven, ReadCause};
ghost use Rattle.file_script.specs.declared.fault.ScriptFault.TheVariants as script;
ghost use Rattle.file_script.specs.Sends.{HeadIsRead, DeclaresFirst, DeclaresLine, ReadsHeads};

use crate::fault::ScriptFault;
use crate::script::FileScript;
use crate::script_lines::ScriptLines;
use edit_text::Line;
use gate_outside::streams::Source;
use session_core::Bot;
use snowflake_id::Snowflake;
use std::alloc::{AllocError, Global};

/// What the head of a file declares.
pub struct Declared {
    /// The bots, in the order of their lines, as often as they stand there.
    pub bots: Vec<Bot>,
    /// The guilds, in the order of their lines, as often as they stand there.
    pub guilds: Vec<Snowflake>,
}

impl Drop for Declared {
    fn drop(self) {
        let Declared { bots, guilds } = self;
        drop(bots);
        drop(guilds);
    }
}

/// The head of a file, and the script that follows it.
#[derive(Drop)]
pub struct FileHead {
    /// What it declares.
    pub declared: Declared,
    /// The script, which begins with what ended the head.
    pub script: FileScript,
}

impl Declared {
    // Adds the bot or guild of a head line. Any other line is handed back.
    fn add(&mut self, line: Line) -> Result<Option<Line>, ScriptFault>
        ensures { DeclaresLine line self.old self.new result }
    {
        match line {
            Line::Bot {
                token,
                user,
                name,
                privileged,
                v: _,
                ring_items,
                ring_bytes,
            } => {
                self.bots.push(Bot {
                    token,
                    user,
                    name,
                    privileged,
                    ring_items,
                    ring_bytes,
                })?;
                Ok(None)
            }
            Line::Guild { id } => {
                self.guilds.push(id)?;
                Ok(None)
            }
            step => Ok(Some(step)),
        }
    }
}

// Reads the head lines, and what ends them.
fn read_heads<S: Source>(
    lines: &mut ScriptLines,
    declared: &mut Declared,
    source: &mut S,
) -> Result<Option<Line>, ScriptFault>
    ensures reads { HasGiven (S.left source.old) lines.old [] [] → (bytes : List ℕ) × Consumes (S.left source.old) (S.left source.new) bytes
        × ReadsHeads (S.left source.new) lines.new bytes declared.old declared.new result }
    ensures cause { ReadCause (S.faults source.old) (S.faults source.new) result }
{
    while let Some(line) = lines.next(source)? {
        if let Some(step) = declared.add(line)? {
            return Ok(Some(step));
        }
    }
    Ok(None)
}

// Whether memory has run out.
fn has_run_out(first: &Result<Option<Line>, ScriptFault>) -> bool
    ensures { IsTrue result ↔ (first.now ≡ Err script.Memory) }
{
    matches!(first, Err(ScriptFault::Memory))
}

/// Reads a source up to the first step line of its file, the first line that is refused, a failure or
/// its end. This is what the script handles first, and what was read past it is kept.
///
/// # Errors
/// Out of memory.
pub fn read_head<S: Source>(alloc: Global, source: &mut S) -> Result<FileHead, AllocError>
    ensures reads { IfOk result (λ head. (bytes : List ℕ) × Consumes (S.left source.old) (S.left source.new) bytes × HeadIsRead (S.left source.new) head.script bytes
        × DeclaresFirst (S.left source.new) bytes head.script.first head.declared.bots.items head.declared.guilds.items) }
    ensures cause { MatchResult result (λ head. ReadCause (S.faults source.old) (S.faults source.new) head.script.first) (λ _. S.faults source.new ≡ S.faults source.old) }
{
    let mut lines = ScriptLines::new(alloc)?;
    let mut declared = Declared {
        bots: Vec::new(alloc),
        guilds: Vec::new(alloc),
    };
    let first = read_heads(&mut lines, &mut declared, source);
    if has_run_out(&first) {
        drop(declared);
        return Err(AllocError);
    }
    Ok(FileHead {
        declared,
        script: FileScript { lines, first },
    })
}
