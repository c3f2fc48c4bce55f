//! The dispatches of each edit of threads.

ghost use Rattle.std.specs.Prelude.{◌≡◌, ◌++◌, OnOk};
ghost use Rattle.event_views.specs.Threads.{seen_thread, thread_creates, thread_updates};
ghost use Rattle.thread_events.specs.Dispatches.{unarchived};
ghost use Rattle.thread_events.specs.ByNote.{deleted_by_note, joined_by_note, left_by_note, thread_by_note};

use crate::sight::{ThreadNote, seen_thread};
use dispatch_types::{Dispatch, ThreadDelete};
use event_views::{Recipient, thread_told};
use intent_set::Kind;
use snowflake_id::Snowflake;
use std::alloc::{AllocError, Global};
use thread_edit::{ThreadEdit, ThreadJoin, ThreadLeave};

// Adds THREAD_CREATE of a thread that the viewer sees now. `newly` if the thread itself is new.
fn add_created(
    alloc: Global,
    to: &Recipient<'_>,
    newly: bool,
    thread: Snowflake,
    list: &mut Vec<Dispatch>,
) -> Result<(), AllocError>
    ensures { OnOk result (list.new.items ≡ list.old.items
        ++ thread_creates to.now.after.id to.now.viewer newly (seen_thread to.now.after to.now.me thread)) }
{
    match seen_thread(to.after, to.me, thread) {
        Some(thread) => thread_told::add_created(alloc, to, newly, thread, list),
        None => Ok(()),
    }
}

// Adds THREAD_UPDATE of a thread that the viewer sees.
fn add_updated(
    alloc: Global,
    to: &Recipient<'_>,
    thread: Snowflake,
    list: &mut Vec<Dispatch>,
) -> Result<(), AllocError>
    ensures { OnOk result (list.new.items ≡ list.old.items
        ++ thread_updates to.now.after.id to.now.viewer (seen_thread to.now.after to.now.me thread)) }
{
    match seen_thread(to.after, to.me, thread) {
        Some(thread) => thread_told::add_updated(alloc, to, thread, list),
        None => Ok(()),
    }
}

// Adds THREAD_UPDATE of a thread that is active again, and then the viewer's own membership.
fn add_unarchived(
    alloc: Global,
    to: &Recipient<'_>,
    thread: Snowflake,
    list: &mut Vec<Dispatch>,
) -> Result<(), AllocError>
    ensures { OnOk result (list.new.items ≡ list.old.items
        ++ unarchived to.now.after to.now.viewer to.now.me thread) }
{
    match seen_thread(to.after, to.me, thread) {
        Some(thread) => {
            thread_told::add_updated(alloc, to, thread, list)?;
            thread_told::add_joined(alloc, to, to.user(), thread, list)?;
            Ok(())
        }
        None => Ok(()),
    }
}

// Adds THREAD_DELETE of a thread that the viewer saw.
fn add_deleted(
    note: &ThreadNote,
    to: &Recipient<'_>,
    thread: Snowflake,
    list: &mut Vec<Dispatch>,
) -> Result<(), AllocError>
    ensures { OnOk result (list.new.items ≡ list.old.items
        ++ deleted_by_note note.now to.now.after.id to.now.viewer thread) }
{
    let ThreadNote::Seen { parent, kind } = note else {
        return Ok(());
    };
    if !to.asks(Kind::ThreadDelete, false) {
        return Ok(());
    }
    list.push(Dispatch::ThreadDelete(ThreadDelete {
        guild: to.guild(),
        id: thread,
        parent: *parent,
        kind: *kind,
    }))?;
    Ok(())
}

// Adds what is told of a user that joins a thread: of one that the viewer saw, the membership; of
// another, the thread, if the viewer sees it now.
fn add_joined(
    alloc: Global,
    note: &ThreadNote,
    to: &Recipient<'_>,
    edit: &ThreadJoin,
    list: &mut Vec<Dispatch>,
) -> Result<(), AllocError>
    ensures { OnOk result (list.new.items ≡ list.old.items
        ++ joined_by_note note.now to.now.after to.now.viewer to.now.me edit.now) }
{
    match note {
        ThreadNote::Seen { .. } => match to.after.thread(edit.thread) {
            Some(thread) => thread_told::add_joined(alloc, to, edit.user, thread, list),
            None => Ok(()),
        },
        ThreadNote::Unseen | ThreadNote::Nothing => {
            add_created(alloc, to, false, edit.thread, list)
        }
    }
}

// Adds what is told of a user that leaves a thread that the viewer saw.
fn add_left(
    alloc: Global,
    note: &ThreadNote,
    to: &Recipient<'_>,
    edit: &ThreadLeave,
    list: &mut Vec<Dispatch>,
) -> Result<(), AllocError>
    ensures { OnOk result (list.new.items ≡ list.old.items
        ++ left_by_note note.now to.now.after to.now.viewer edit.now) }
{
    match note {
        ThreadNote::Seen { .. } => match to.after.thread(edit.thread) {
            Some(thread) => thread_told::add_left(alloc, to, edit.user, thread, list),
            None => Ok(()),
        },
        ThreadNote::Unseen | ThreadNote::Nothing => Ok(()),
    }
}

/// Adds the dispatches of an edit, by what was noted before it, the record after it and the viewer's
/// own member.
pub fn add_dispatches(
    alloc: Global,
    note: &ThreadNote,
    to: &Recipient<'_>,
    edit: &ThreadEdit,
    list: &mut Vec<Dispatch>,
) -> Result<(), AllocError>
    ensures { OnOk result (list.new.items ≡ list.old.items
        ++ thread_by_note note.now to.now.after to.now.viewer to.now.me edit.now) }
{
    match edit {
        ThreadEdit::ThreadCreate(edit) => add_created(alloc, to, true, edit.thread, list),
        ThreadEdit::ThreadRename(edit) => add_updated(alloc, to, edit.thread, list),
        ThreadEdit::ThreadArchive { thread } => add_updated(alloc, to, *thread, list),
        ThreadEdit::ThreadUnarchive { thread } => add_unarchived(alloc, to, *thread, list),
        ThreadEdit::ThreadDelete { thread } => add_deleted(note, to, *thread, list),
        ThreadEdit::ThreadJoin(edit) => add_joined(alloc, note, to, edit, list),
        ThreadEdit::ThreadLeave(edit) => add_left(alloc, note, to, edit, list),
    }
}
