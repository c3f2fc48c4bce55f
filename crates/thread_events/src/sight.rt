//! Which threads a viewer sees, and what has to be known of one before an edit of it.

ghost use Rattle.std.specs.Prelude.{◌≡◌, option_copied};
ghost use Rattle.event_views.specs.Threads.{seen_thread};
ghost use Rattle.thread_events.specs.Ends.{note_of, thread_note};

use guild_model::{Guild, Member, Thread, ThreadKind};
use overwrite_eval::StandingRef;
use snowflake_id::Snowflake;
use thread_edit::ThreadEdit;

/// What has to be known of a thread before an edit of it.
#[derive(Clone, Copy, PartialEq, Eq, Debug)]
pub enum ThreadNote {
    /// Nothing: the record after the edit says all.
    Nothing,
    /// The viewer did not see the thread.
    Unseen,
    /// It saw the thread, which stood in this channel and was of this type.
    Seen { parent: Snowflake, kind: ThreadKind },
}

/// The thread of an id, archived or not, if the member sees it (Threads, Private Threads).
pub fn seen_thread<'a>(guild: &'a Guild, me: &Member, thread: Snowflake) -> Option<&'a Thread>
    ensures { option_copied result ≡ seen_thread guild.now me.now thread }
{
    match guild.thread(thread) {
        Some(thread) => {
            if StandingRef::in_guild(guild, me).sees_thread(thread) {
                Some(thread)
            } else {
                None
            }
        }
        None => None,
    }
}

fn seen_before(before: &Guild, me: &Member, thread: Snowflake) -> ThreadNote
    ensures { result ≡ note_of (seen_thread before.now me.now thread) }
{
    match seen_thread(before, me, thread) {
        Some(thread) => ThreadNote::Seen {
            parent: thread.parent,
            kind: thread.kind,
        },
        None => ThreadNote::Unseen,
    }
}

/// Keeps what [`add_dispatches`](crate::add_dispatches) has to know of the record before an edit.
pub fn note(before: &Guild, me: &Member, edit: &ThreadEdit) -> ThreadNote
    ensures { result ≡ thread_note before.now me.now edit.now }
{
    match edit {
        ThreadEdit::ThreadDelete { thread } => seen_before(before, me, *thread),
        ThreadEdit::ThreadJoin(edit) => seen_before(before, me, edit.thread),
        ThreadEdit::ThreadLeave(edit) => seen_before(before, me, edit.thread),
        ThreadEdit::ThreadCreate(_) => ThreadNote::Nothing,
        ThreadEdit::ThreadRename(_) => ThreadNote::Nothing,
        ThreadEdit::ThreadArchive { .. } => ThreadNote::Nothing,
        ThreadEdit::ThreadUnarchive { .. } => ThreadNote::Nothing,
    }
}
