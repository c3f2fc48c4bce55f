//! Reads and writes the fields of the edits of roles and members.

ghost use Rattle.std.specs.Prelude.{◌≡◌, OnOk};
ghost use Rattle.json_view.specs.Nodes.{view};
ghost use Rattle.edit_fields.specs.Fault.{UnlessMemory};
ghost use Rattle.edit_fields.specs.Fits.{IdFits, MaskFits, MomentFits, NullableMomentFits, RoleMemberEditFits};
ghost use Rattle.edit_fields.specs.Members.{HasPut};
ghost use Rattle.edit_fields.specs.RoleMemberEdits.{role_from, member_add_from, member_nick_from, member_timeout_from, held_role_from, role_member_edit_from, role_member_edit_name, role_fields, member_add_fields, member_nick_fields, member_timeout_fields, held_role_fields, role_member_edit_fields};

use crate::LineFault;
use crate::fields::{
    flag_at, id_at, mask_at, moment_at, nullable_moment_at, nullable_text_at, position_at, text_at,
};
use crate::members::{
    put_flag, put_id, put_mask, put_moment, put_nullable_moment, put_nullable_text, put_number,
    put_text,
};
use crate::names::RoleMemberEditName;
use collections::Text;
use json_view::Node;
use role_member_edit::{HeldRole, MemberAdd, MemberNick, MemberTimeout, RoleBody, RoleMemberEdit};
use serde_json::{Map, Value};
use std::alloc::{AllocError, Global};

fn role_from(alloc: Global, object: &Node<'_>) -> Result<RoleBody, LineFault>
    ensures { UnlessMemory result (role_from (view object.now)) }
{
    let role = id_at(object, "role")?;
    let name = text_at(object, "name")?;
    let perms = mask_at(object, "perms")?;
    let position = position_at(object, "position")?;
    let name = Text::new(alloc, name)?;
    Ok(RoleBody {
        role,
        name,
        perms,
        position,
    })
}

fn member_add_from(alloc: Global, object: &Node<'_>) -> Result<MemberAdd, LineFault>
    ensures { UnlessMemory result (member_add_from (view object.now)) }
{
    let user = id_at(object, "user")?;
    let name = text_at(object, "name")?;
    let bot = flag_at(object, "bot")?;
    let at = moment_at(object, "at")?;
    let name = Text::new(alloc, name)?;
    Ok(MemberAdd {
        user,
        name,
        bot,
        at,
    })
}

fn member_nick_from(alloc: Global, object: &Node<'_>) -> Result<MemberNick, LineFault>
    ensures { UnlessMemory result (member_nick_from (view object.now)) }
{
    let user = id_at(object, "user")?;
    let nick = nullable_text_at(alloc, object, "nick")?;
    Ok(MemberNick { user, nick })
}

fn member_timeout_from(object: &Node<'_>) -> Result<MemberTimeout, LineFault>
    ensures { result ≡ member_timeout_from (view object.now) }
{
    let user = id_at(object, "user")?;
    let until = nullable_moment_at(object, "until")?;
    Ok(MemberTimeout { user, until })
}

fn held_role_from(object: &Node<'_>) -> Result<HeldRole, LineFault>
    ensures { result ≡ held_role_from (view object.now) }
{
    let user = id_at(object, "user")?;
    let role = id_at(object, "role")?;
    Ok(HeldRole { user, role })
}

/// Reads the edit of this name from the fields of an object.
pub fn read(
    alloc: Global,
    name: RoleMemberEditName,
    object: &Node<'_>,
) -> Result<RoleMemberEdit, LineFault>
    ensures { UnlessMemory result (role_member_edit_from name (view object.now)) }
{
    Ok(match name {
        RoleMemberEditName::RoleCreate => RoleMemberEdit::RoleCreate(role_from(alloc, object)?),
        RoleMemberEditName::RoleUpdate => RoleMemberEdit::RoleUpdate(role_from(alloc, object)?),
        RoleMemberEditName::RoleDelete => RoleMemberEdit::RoleDelete {
            role: id_at(object, "role")?,
        },
        RoleMemberEditName::MemberAdd => RoleMemberEdit::MemberAdd(member_add_from(alloc, object)?),
        RoleMemberEditName::MemberRemove => RoleMemberEdit::MemberRemove {
            user: id_at(object, "user")?,
        },
        RoleMemberEditName::MemberNick => {
            RoleMemberEdit::MemberNick(member_nick_from(alloc, object)?)
        }
        RoleMemberEditName::MemberTimeout => {
            RoleMemberEdit::MemberTimeout(member_timeout_from(object)?)
        }
        RoleMemberEditName::MemberRoleAdd => {
            RoleMemberEdit::MemberRoleAdd(held_role_from(object)?)
        }
        RoleMemberEditName::MemberRoleRemove => {
            RoleMemberEdit::MemberRoleRemove(held_role_from(object)?)
        }
    })
}

/// The name of an edit.
pub fn name_of(edit: &RoleMemberEdit) -> RoleMemberEditName
    ensures { result ≡ role_member_edit_name edit.now }
{
    match edit {
        RoleMemberEdit::RoleCreate(_) => RoleMemberEditName::RoleCreate,
        RoleMemberEdit::RoleUpdate(_) => RoleMemberEditName::RoleUpdate,
        RoleMemberEdit::RoleDelete { .. } => RoleMemberEditName::RoleDelete,
        RoleMemberEdit::MemberAdd(_) => RoleMemberEditName::MemberAdd,
        RoleMemberEdit::MemberRemove { .. } => RoleMemberEditName::MemberRemove,
        RoleMemberEdit::MemberNick(_) => RoleMemberEditName::MemberNick,
        RoleMemberEdit::MemberTimeout(_) => RoleMemberEditName::MemberTimeout,
        RoleMemberEdit::MemberRoleAdd(_) => RoleMemberEditName::MemberRoleAdd,
        RoleMemberEdit::MemberRoleRemove(_) => RoleMemberEditName::MemberRoleRemove,
    }
}

fn put_role(
    alloc: Global,
    members: &mut Map<String, Value>,
    body: &RoleBody,
) -> Result<(), AllocError>
    ensures put { OnOk result
        (HasPut members.old.entries members.new.entries (role_fields body.now)) }
    ensures fits { OnOk result (IdFits body.now.role × MaskFits body.now.perms) }
{
    put_id(alloc, members, "role", body.role)?;
    put_text(alloc, members, "name", &body.name)?;
    put_mask(alloc, members, "perms", body.perms)?;
    put_number(alloc, members, "position", u64::from(body.position))?;
    Ok(())
}

fn put_member_add(
    alloc: Global,
    members: &mut Map<String, Value>,
    edit: &MemberAdd,
) -> Result<(), AllocError>
    ensures put { OnOk result
        (HasPut members.old.entries members.new.entries (member_add_fields edit.now)) }
    ensures fits { OnOk result (IdFits edit.now.user × MomentFits edit.now.at) }
{
    put_id(alloc, members, "user", edit.user)?;
    put_text(alloc, members, "name", &edit.name)?;
    put_flag(alloc, members, "bot", edit.bot)?;
    put_moment(alloc, members, "at", edit.at)?;
    Ok(())
}

fn put_member_nick(
    alloc: Global,
    members: &mut Map<String, Value>,
    edit: &MemberNick,
) -> Result<(), AllocError>
    ensures put { OnOk result
        (HasPut members.old.entries members.new.entries (member_nick_fields edit.now)) }
    ensures fits { OnOk result (IdFits edit.now.user) }
{
    put_id(alloc, members, "user", edit.user)?;
    put_nullable_text(alloc, members, "nick", edit.nick.as_ref())?;
    Ok(())
}

fn put_member_timeout(
    alloc: Global,
    members: &mut Map<String, Value>,
    edit: &MemberTimeout,
) -> Result<(), AllocError>
    ensures put { OnOk result
        (HasPut members.old.entries members.new.entries (member_timeout_fields edit.now)) }
    ensures fits { OnOk result (IdFits edit.now.user × NullableMomentFits edit.now.until) }
{
    put_id(alloc, members, "user", edit.user)?;
    put_nullable_moment(alloc, members, "until", edit.until)?;
    Ok(())
}

fn put_held_role(
    alloc: Global,
    members: &mut Map<String, Value>,
    held: &HeldRole,
) -> Result<(), AllocError>
    ensures put { OnOk result
        (HasPut members.old.entries members.new.entries (held_role_fields held.now)) }
    ensures fits { OnOk result (IdFits held.now.user × IdFits held.now.role) }
{
    put_id(alloc, members, "user", held.user)?;
    put_id(alloc, members, "role", held.role)?;
    Ok(())
}

/// Puts the fields of an edit into an object.
pub fn put(
    alloc: Global,
    members: &mut Map<String, Value>,
    edit: &RoleMemberEdit,
) -> Result<(), AllocError>
    ensures put { OnOk result
        (HasPut members.old.entries members.new.entries (role_member_edit_fields edit.now)) }
    ensures fits { OnOk result (RoleMemberEditFits edit.now) }
{
    match edit {
        RoleMemberEdit::RoleCreate(body) => put_role(alloc, members, body),
        RoleMemberEdit::RoleUpdate(body) => put_role(alloc, members, body),
        RoleMemberEdit::RoleDelete { role } => put_id(alloc, members, "role", *role),
        RoleMemberEdit::MemberAdd(edit) => put_member_add(alloc, members, edit),
        RoleMemberEdit::MemberRemove { user } => put_id(alloc, members, "user", *user),
        RoleMemberEdit::MemberNick(edit) => put_member_nick(alloc, members, edit),
        RoleMemberEdit::MemberTimeout(edit) => put_member_timeout(alloc, members, edit),
        RoleMemberEdit::MemberRoleAdd(held) => put_held_role(alloc, members, held),
        RoleMemberEdit::MemberRoleRemove(held) => put_held_role(alloc, members, held),
    }
}
