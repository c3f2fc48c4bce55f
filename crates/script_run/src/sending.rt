//! A script, from its first line to its last.

ghost use Rattle.std.specs.Prelude.{◌≡◌, ◌<◌, ◌∷◌, [], length, map, List, MatchResult};
ghost use Rattle.edit_post.specs.Post.{Sender, after_end};
ghost use Rattle.guild_posts.specs.Posts.{ArePasses, AreSent, IsRefusedBySome};
ghost use Rattle.script_run.specs.Scripts.{edits_in, SendsScript};

use edit_post::{Post, SendPass, SendRefused};
use edit_text::Line;
use guild_posts::{end_all, send};
use indexmap::IndexSet;
use std::sync::Wait;

/// Sends the edit of a line to the post of its guild's actor. No other line sends anything. An edit of a guild that
/// does not stand in the index goes to the first post.
///
/// # Errors
/// Those of [`guild_posts::send`]; then nothing was sent.
pub fn send_line<R: Wait + Drop>(
    posts: &[Post<R>],
    passes: &mut Vec<SendPass>,
    index: &IndexSet<u64>,
    line: Line,
) -> Result<(), SendRefused>
    requires some { 0 < length posts.now }
    requires passes { ArePasses posts.now passes.old.items }
    ensures { MatchResult result (λ _. AreSent index.now.keys (edits_in (line ∷ [])) passes.old.items passes.new.items) (λ refused. (passes.new.items ≡ passes.old.items) × IsRefusedBySome passes.new.items refused) }
{
    match line {
        Line::Edit { guild, edit } => send(posts, passes, index, guild, edit),
        other => {
            drop(other);
            Ok(())
        }
    }
}

// Sends the edits of these lines, in order.
fn send_lines<R: Wait + Drop>(
    posts: &[Post<R>],
    passes: &mut Vec<SendPass>,
    index: &IndexSet<u64>,
    lines: Vec<Line>,
) -> Result<(), SendRefused>
    requires some { 0 < length posts.now }
    requires passes { ArePasses posts.now passes.old.items }
    ensures passes { ArePasses posts.now passes.new.items }
    ensures sent { SendsScript index.now.keys (edits_in lines.items) passes.old.items passes.new.items result }
{
    for line in lines {
        send_line(posts, passes, index, line)?;
    }
    Ok(())
}

/// Sends the edits of a script to the posts of their guilds' actors, in order, and then ends the passes.
/// Only the lines of edits send anything. An edit of a guild that does not stand in the index goes to the
/// first post.
///
/// # Errors
/// `Spent` only if a pass has sent 2^57 requests, and `Memory`. The first of the edits are sent then, and
/// the passes have ended too.
pub fn send_script<R: Wait + Drop>(
    posts: &[Post<R>],
    passes: &mut Vec<SendPass>,
    index: &IndexSet<u64>,
    lines: Vec<Line>,
) -> Result<(), SendRefused>
    requires some { 0 < length posts.now }
    requires passes { ArePasses posts.now passes.old.items }
    ensures { (sent : List Sender) × SendsScript index.now.keys (edits_in lines.items) passes.old.items sent result × (passes.new.items ≡ map after_end sent) }
{
    let sent = send_lines(posts, passes, index, lines);
    end_all(posts, passes);
    sent
}
