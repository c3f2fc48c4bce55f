//! The dispatches of an edit of roles or members, in their order.

ghost use Rattle.std.specs.Prelude.{◌≡◌, ◌++◌, OnOk};
ghost use Rattle.role_member_events.specs.ByNote.{synced_by_note, roles_by_note, role_member_by_note};

use crate::ends::RoleMemberNote;
use crate::{members, roles};
use dispatch_types::Dispatch;
use event_views::{Recipient, add_list_sync};
use role_member_edit::RoleMemberEdit;
use snowflake_id::Snowflake;
use std::alloc::{AllocError, Global};

// Adds THREAD_LIST_SYNC of what a change of the viewer's permissions uncovers.
fn add_uncovered(
    alloc: Global,
    note: &RoleMemberNote,
    to: &Recipient<'_>,
    list: &mut Vec<Dispatch>,
) -> Result<(), AllocError>
    ensures { OnOk result (list.new.items
        ≡ list.old.items ++ synced_by_note note.now to.now.after to.now.viewer to.now.me) }
{
    match note {
        RoleMemberNote::Sights(before) => add_list_sync(alloc, before, to, list),
        RoleMemberNote::Leaving(_) | RoleMemberNote::Nothing => Ok(()),
    }
}

// Adds a change of a member's roles: the member, and then what the change uncovers.
fn add_roles_changed(
    alloc: Global,
    note: &RoleMemberNote,
    to: &Recipient<'_>,
    user: Snowflake,
    list: &mut Vec<Dispatch>,
) -> Result<(), AllocError>
    ensures { OnOk result (list.new.items
        ≡ list.old.items ++ roles_by_note note.now to.now.after to.now.viewer to.now.me user) }
{
    members::add_updated(alloc, to, user, list)?;
    add_uncovered(alloc, note, to, list)?;
    Ok(())
}

/// Adds what an edit owes to a viewer that is served before and after it, by what
/// [`note`](crate::note) kept.
pub fn add_dispatches(
    alloc: Global,
    note: &RoleMemberNote,
    to: &Recipient<'_>,
    edit: &RoleMemberEdit,
    list: &mut Vec<Dispatch>,
) -> Result<(), AllocError>
    ensures { OnOk result (list.new.items ≡ list.old.items
        ++ role_member_by_note note.now to.now.after to.now.viewer to.now.me edit.now) }
{
    match edit {
        RoleMemberEdit::RoleCreate(edit) => roles::add_created(alloc, to, edit, list)?,
        RoleMemberEdit::RoleUpdate(edit) => {
            roles::add_updated(alloc, to, edit, list)?;
            add_uncovered(alloc, note, to, list)?;
        }
        RoleMemberEdit::RoleDelete { role } => {
            roles::add_deleted(to, *role, list)?;
            add_uncovered(alloc, note, to, list)?;
        }
        RoleMemberEdit::MemberAdd(edit) => members::add_added(alloc, to, edit, list)?,
        RoleMemberEdit::MemberRemove { .. } => members::add_ended(alloc, note, to, list)?,
        RoleMemberEdit::MemberNick(edit) => members::add_updated(alloc, to, edit.user, list)?,
        RoleMemberEdit::MemberTimeout(edit) => members::add_updated(alloc, to, edit.user, list)?,
        RoleMemberEdit::MemberRoleAdd(edit) => {
            add_roles_changed(alloc, note, to, edit.user, list)?;
        }
        RoleMemberEdit::MemberRoleRemove(edit) => {
            add_roles_changed(alloc, note, to, edit.user, list)?;
        }
    }
    Ok(())
}
