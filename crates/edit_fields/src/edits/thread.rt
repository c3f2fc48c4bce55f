//! Reads and writes the fields of the edits of threads.

ghost use Rattle.std.specs.Prelude.{◌≡◌, OnOk};
ghost use Rattle.json_view.specs.Nodes.{view};
ghost use Rattle.edit_fields.specs.Fault.{UnlessMemory};
ghost use Rattle.edit_fields.specs.Fits.{IdFits, MomentFits, ThreadEditFits};
ghost use Rattle.edit_fields.specs.Members.{HasPut};
ghost use Rattle.edit_fields.specs.ThreadEdits.{thread_create_from, thread_rename_from, thread_join_from, thread_leave_from, thread_edit_from, thread_edit_name, thread_create_fields, thread_rename_fields, thread_join_fields, thread_leave_fields, thread_edit_fields};

use crate::LineFault;
use crate::fields::{id_at, moment_at, text_at, thread_kind_at};
use crate::members::{put_id, put_moment, put_number, put_text};
use crate::names::ThreadEditName;
use collections::Text;
use json_view::Node;
use serde_json::{Map, Value};
use std::alloc::{AllocError, Global};
use thread_edit::{ThreadCreate, ThreadEdit, ThreadJoin, ThreadLeave, ThreadRename};

fn thread_create_from(alloc: Global, object: &Node<'_>) -> Result<ThreadCreate, LineFault>
    ensures { UnlessMemory result (thread_create_from (view object.now)) }
{
    let thread = id_at(object, "thread")?;
    let parent = id_at(object, "parent")?;
    let kind = thread_kind_at(object, "type")?;
    let name = text_at(object, "name")?;
    let owner = id_at(object, "owner")?;
    let at = moment_at(object, "at")?;
    let name = Text::new(alloc, name)?;
    Ok(ThreadCreate {
        thread,
        parent,
        kind,
        name,
        owner,
        at,
    })
}

fn thread_rename_from(alloc: Global, object: &Node<'_>) -> Result<ThreadRename, LineFault>
    ensures { UnlessMemory result (thread_rename_from (view object.now)) }
{
    let thread = id_at(object, "thread")?;
    let name = text_at(object, "name")?;
    let name = Text::new(alloc, name)?;
    Ok(ThreadRename { thread, name })
}

fn thread_join_from(object: &Node<'_>) -> Result<ThreadJoin, LineFault>
    ensures { result ≡ thread_join_from (view object.now) }
{
    let thread = id_at(object, "thread")?;
    let user = id_at(object, "user")?;
    let at = moment_at(object, "at")?;
    Ok(ThreadJoin { thread, user, at })
}

fn thread_leave_from(object: &Node<'_>) -> Result<ThreadLeave, LineFault>
    ensures { result ≡ thread_leave_from (view object.now) }
{
    let thread = id_at(object, "thread")?;
    let user = id_at(object, "user")?;
    Ok(ThreadLeave { thread, user })
}

/// Reads the edit of this name from the fields of an object.
pub fn read(alloc: Global, name: ThreadEditName, object: &Node<'_>) -> Result<ThreadEdit, LineFault>
    ensures { UnlessMemory result (thread_edit_from name (view object.now)) }
{
    Ok(match name {
        ThreadEditName::ThreadCreate => {
            ThreadEdit::ThreadCreate(thread_create_from(alloc, object)?)
        }
        ThreadEditName::ThreadRename => {
            ThreadEdit::ThreadRename(thread_rename_from(alloc, object)?)
        }
        ThreadEditName::ThreadArchive => ThreadEdit::ThreadArchive {
            thread: id_at(object, "thread")?,
        },
        ThreadEditName::ThreadUnarchive => ThreadEdit::ThreadUnarchive {
            thread: id_at(object, "thread")?,
        },
        ThreadEditName::ThreadDelete => ThreadEdit::ThreadDelete {
            thread: id_at(object, "thread")?,
        },
        ThreadEditName::ThreadJoin => ThreadEdit::ThreadJoin(thread_join_from(object)?),
        ThreadEditName::ThreadLeave => ThreadEdit::ThreadLeave(thread_leave_from(object)?),
    })
}

/// The name of an edit.
pub fn name_of(edit: &ThreadEdit) -> ThreadEditName
    ensures { result ≡ thread_edit_name edit.now }
{
    match edit {
        ThreadEdit::ThreadCreate(_) => ThreadEditName::ThreadCreate,
        ThreadEdit::ThreadRename(_) => ThreadEditName::ThreadRename,
        ThreadEdit::ThreadArchive { .. } => ThreadEditName::ThreadArchive,
        ThreadEdit::ThreadUnarchive { .. } => ThreadEditName::ThreadUnarchive,
        ThreadEdit::ThreadDelete { .. } => ThreadEditName::ThreadDelete,
        ThreadEdit::ThreadJoin(_) => ThreadEditName::ThreadJoin,
        ThreadEdit::ThreadLeave(_) => ThreadEditName::ThreadLeave,
    }
}

fn put_thread_create(
    alloc: Global,
    members: &mut Map<String, Value>,
    edit: &ThreadCreate,
) -> Result<(), AllocError>
    ensures put { OnOk result
        (HasPut members.old.entries members.new.entries (thread_create_fields edit.now)) }
    ensures fits { OnOk result
        (IdFits edit.now.thread × IdFits edit.now.parent
        × IdFits edit.now.owner × MomentFits edit.now.at) }
{
    put_id(alloc, members, "thread", edit.thread)?;
    put_id(alloc, members, "parent", edit.parent)?;
    put_number(alloc, members, "type", edit.kind.number())?;
    put_text(alloc, members, "name", &edit.name)?;
    put_id(alloc, members, "owner", edit.owner)?;
    put_moment(alloc, members, "at", edit.at)?;
    Ok(())
}

fn put_thread_rename(
    alloc: Global,
    members: &mut Map<String, Value>,
    edit: &ThreadRename,
) -> Result<(), AllocError>
    ensures put { OnOk result
        (HasPut members.old.entries members.new.entries (thread_rename_fields edit.now)) }
    ensures fits { OnOk result (IdFits edit.now.thread) }
{
    put_id(alloc, members, "thread", edit.thread)?;
    put_text(alloc, members, "name", &edit.name)?;
    Ok(())
}

fn put_thread_join(
    alloc: Global,
    members: &mut Map<String, Value>,
    edit: &ThreadJoin,
) -> Result<(), AllocError>
    ensures put { OnOk result
        (HasPut members.old.entries members.new.entries (thread_join_fields edit.now)) }
    ensures fits { OnOk result
        (IdFits edit.now.thread × IdFits edit.now.user × MomentFits edit.now.at) }
{
    put_id(alloc, members, "thread", edit.thread)?;
    put_id(alloc, members, "user", edit.user)?;
    put_moment(alloc, members, "at", edit.at)?;
    Ok(())
}

fn put_thread_leave(
    alloc: Global,
    members: &mut Map<String, Value>,
    edit: &ThreadLeave,
) -> Result<(), AllocError>
    ensures put { OnOk result
        (HasPut members.old.entries members.new.entries (thread_leave_fields edit.now)) }
    ensures fits { OnOk result (IdFits edit.now.thread × IdFits edit.now.user) }
{
    put_id(alloc, members, "thread", edit.thread)?;
    put_id(alloc, members, "user", edit.user)?;
    Ok(())
}

/// Puts the fields of an edit into an object.
pub fn put(
    alloc: Global,
    members: &mut Map<String, Value>,
    edit: &ThreadEdit,
) -> Result<(), AllocError>
    ensures put { OnOk result
        (HasPut members.old.entries members.new.entries (thread_edit_fields edit.now)) }
    ensures fits { OnOk result (ThreadEditFits edit.now) }
{
    match edit {
        ThreadEdit::ThreadCreate(edit) => put_thread_create(alloc, members, edit),
        ThreadEdit::ThreadRename(edit) => put_thread_rename(alloc, members, edit),
        ThreadEdit::ThreadArchive { thread } => put_id(alloc, members, "thread", *thread),
        ThreadEdit::ThreadUnarchive { thread } => put_id(alloc, members, "thread", *thread),
        ThreadEdit::ThreadDelete { thread } => put_id(alloc, members, "thread", *thread),
        ThreadEdit::ThreadJoin(edit) => put_thread_join(alloc, members, edit),
        ThreadEdit::ThreadLeave(edit) => put_thread_leave(alloc, members, edit),
    }
}
