//! Sends the edits of a script's file.
ghost use Rattle.std.specs.Prelude.{◌≡◌, ◌<◌, ◌++◌, ℕ, List, length, map};
ghost use Rattle.std.specs.Io.KnownBytes.{Consumes};
ghost use Rattle.edit_post.specs.Post.{Sender, after_end};
ghost use Rattle.edit_text.specs.declared.line.Line.{Line as ALine};
ghost use Rattle.guild_posts.specs.Posts.{ArePasses, AreSent};
ghost use Rattle.script_run.specs.Scripts.{edits_in};
ghost use Rattle.file_script.specs.Reads.{HasGiven, ReadCause};
ghost use Rattle.file_script.specs.Sends.{HeadIsRead, SendsFile, SendCause};

use crate::fault::ScriptFault;
use crate::script::FileScript;
use crate::script_lines::ScriptLines;
use edit_post::{Post, SendPass};
use gate_outside::streams::Source;
use guild_posts::end_all;
use indexmap::IndexSet;
use script_run::send_line;
use std::sync::Wait;

// Sends the edits of the lines that follow, each once its line is read.
fn send_rest<S: Source, R: Wait + Drop>(
    posts: &[Post<R>],
    passes: &mut Vec<SendPass>,
    index: &IndexSet<u64>,
    source: &mut S,
    lines: &mut ScriptLines,
) -> Result<(), ScriptFault>
    requires some { 0 < length posts.now }
    requires passes { ArePasses posts.now passes.old.items }
    ensures passes { ArePasses posts.now passes.new.items }
    ensures sends { (bytes : List ℕ) (given : List ALine) (before : List Sender) → HasGiven (S.left source.old) lines.old bytes given → AreSent index.now.keys (edits_in given) before passes.old.items
        → (more : List ℕ) × Consumes (S.left source.old) (S.left source.new) more × SendsFile index.now.keys (S.left source.new) (bytes ++ more) before passes.new.items result }
    ensures cause { ReadCause (S.faults source.old) (S.faults source.new) result }
{
    while let Some(line) = lines.next(source)? {
        send_line(posts, passes, index, line)?;
    }
    Ok(())
}

// Sends the edits of a script.
fn send_edits<S: Source, R: Wait + Drop>(
    posts: &[Post<R>],
    passes: &mut Vec<SendPass>,
    index: &IndexSet<u64>,
    source: &mut S,
    script: FileScript,
) -> Result<(), ScriptFault>
    requires some { 0 < length posts.now }
    requires passes { ArePasses posts.now passes.old.items }
    ensures passes { ArePasses posts.now passes.new.items }
    ensures sends { (bytes : List ℕ) → HeadIsRead (S.left source.old) script bytes
        → (more : List ℕ) × Consumes (S.left source.old) (S.left source.new) more × SendsFile index.now.keys (S.left source.new) (bytes ++ more) passes.old.items passes.new.items result }
    ensures cause { SendCause script.first (S.faults source.old) (S.faults source.new) result }
{
    let (mut lines, first) = script.into_parts();
    let Some(line) = first? else {
        return Ok(());
    };
    send_line(posts, passes, index, line)?;
    send_rest(posts, passes, index, source, &mut lines)
}

/// Sends the edits of a script to the posts of their guilds' actors, in order, each as soon as its line
/// is read, and then ends the passes. The script goes on from where its head ended. Only the lines of
/// edits send anything. An edit of a guild that does not stand in the index goes to the first post.
///
/// # Errors
/// `Read` exactly if the source failed, here or at the head; the edits of the whole lines that were
/// read are sent then. `Line` for the first line that is refused, by its number; the edits before it
/// are sent. `Spent` only if a pass has sent 2^57 requests, and `Memory`; the first of the edits are
/// sent. The passes have ended in every case.
pub fn send_file<S: Source, R: Wait + Drop>(
    posts: &[Post<R>],
    passes: &mut Vec<SendPass>,
    index: &IndexSet<u64>,
    source: &mut S,
    script: FileScript,
) -> Result<(), ScriptFault>
    requires some { 0 < length posts.now }
    requires passes { ArePasses posts.now passes.old.items }
    ensures sends { (bytes : List ℕ) → HeadIsRead (S.left source.old) script bytes
        → (more : List ℕ) × (sent : List Sender) × Consumes (S.left source.old) (S.left source.new) more
        × SendsFile index.now.keys (S.left source.new) (bytes ++ more) passes.old.items sent result × (passes.new.items ≡ map after_end sent) }
    ensures cause { SendCause script.first (S.faults source.old) (S.faults source.new) result }
{
    let sent = send_edits(posts, passes, index, source, script);
    end_all(posts, passes);
    sent
}
