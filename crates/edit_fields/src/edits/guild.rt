//! Reads and writes the fields of the edits of a guild itself.

ghost use Rattle.std.specs.Prelude.{◌≡◌, OnOk};
ghost use Rattle.json_view.specs.Nodes.{view};
ghost use Rattle.edit_fields.specs.Fault.{UnlessMemory};
ghost use Rattle.edit_fields.specs.Fits.{IdFits, MaskFits, MomentFits, GuildEditFits};
ghost use Rattle.edit_fields.specs.Members.{HasPut};
ghost use Rattle.edit_fields.specs.GuildEdits.{guild_open_from, guild_rename_from, guild_edit_from, guild_edit_name, guild_open_fields, guild_edit_fields};

use crate::LineFault;
use crate::fields::{flag_at, id_at, mask_at, moment_at, text_at};
use crate::members::{put_flag, put_id, put_mask, put_moment, put_text};
use crate::names::GuildEditName;
use collections::Text;
use edit_apply::{GuildEdit, GuildOpen};
use json_view::Node;
use serde_json::{Map, Value};
use std::alloc::{AllocError, Global};

fn guild_open_from(alloc: Global, object: &Node<'_>) -> Result<GuildOpen, LineFault>
    ensures { UnlessMemory result (guild_open_from (view object.now)) }
{
    let name = text_at(object, "name")?;
    let owner = id_at(object, "owner")?;
    let owner_name = text_at(object, "owner_name")?;
    let perms = mask_at(object, "perms")?;
    let at = moment_at(object, "at")?;
    let name = Text::new(alloc, name)?;
    let owner_name = Text::new(alloc, owner_name)?;
    Ok(GuildOpen {
        name,
        owner,
        owner_name,
        perms,
        at,
    })
}

fn guild_rename_from(alloc: Global, object: &Node<'_>) -> Result<GuildEdit, LineFault>
    ensures { UnlessMemory result (guild_rename_from (view object.now)) }
{
    let name = text_at(object, "name")?;
    let name = Text::new(alloc, name)?;
    Ok(GuildEdit::GuildRename { name })
}

/// Reads the edit of this name from the fields of an object.
pub fn read(alloc: Global, name: GuildEditName, object: &Node<'_>) -> Result<GuildEdit, LineFault>
    ensures { UnlessMemory result (guild_edit_from name (view object.now)) }
{
    Ok(match name {
        GuildEditName::GuildOpen => GuildEdit::GuildOpen(guild_open_from(alloc, object)?),
        GuildEditName::GuildRename => guild_rename_from(alloc, object)?,
        GuildEditName::GuildOwner => GuildEdit::GuildOwner {
            user: id_at(object, "user")?,
        },
        GuildEditName::GuildOutage => GuildEdit::GuildOutage,
        GuildEditName::GuildBack => GuildEdit::GuildBack,
        GuildEditName::GuildPrivate => GuildEdit::GuildPrivate {
            private: flag_at(object, "private")?,
        },
    })
}

/// The name of an edit.
pub fn name_of(edit: &GuildEdit) -> GuildEditName
    ensures { result ≡ guild_edit_name edit.now }
{
    match edit {
        GuildEdit::GuildOpen(_) => GuildEditName::GuildOpen,
        GuildEdit::GuildRename { .. } => GuildEditName::GuildRename,
        GuildEdit::GuildOwner { .. } => GuildEditName::GuildOwner,
        GuildEdit::GuildOutage => GuildEditName::GuildOutage,
        GuildEdit::GuildBack => GuildEditName::GuildBack,
        GuildEdit::GuildPrivate { .. } => GuildEditName::GuildPrivate,
    }
}

fn put_guild_open(
    alloc: Global,
    members: &mut Map<String, Value>,
    edit: &GuildOpen,
) -> Result<(), AllocError>
    ensures put { OnOk result
        (HasPut members.old.entries members.new.entries (guild_open_fields edit.now)) }
    ensures fits { OnOk result
        (IdFits edit.now.owner × MaskFits edit.now.perms × MomentFits edit.now.at) }
{
    put_text(alloc, members, "name", &edit.name)?;
    put_id(alloc, members, "owner", edit.owner)?;
    put_text(alloc, members, "owner_name", &edit.owner_name)?;
    put_mask(alloc, members, "perms", edit.perms)?;
    put_moment(alloc, members, "at", edit.at)?;
    Ok(())
}

/// Puts the fields of an edit into an object.
pub fn put(
    alloc: Global,
    members: &mut Map<String, Value>,
    edit: &GuildEdit,
) -> Result<(), AllocError>
    ensures put { OnOk result
        (HasPut members.old.entries members.new.entries (guild_edit_fields edit.now)) }
    ensures fits { OnOk result (GuildEditFits edit.now) }
{
    match edit {
        GuildEdit::GuildOpen(edit) => put_guild_open(alloc, members, edit),
        GuildEdit::GuildRename { name } => put_text(alloc, members, "name", name),
        GuildEdit::GuildOwner { user } => put_id(alloc, members, "user", *user),
        GuildEdit::GuildOutage | GuildEdit::GuildBack => Ok(()),
        GuildEdit::GuildPrivate { private } => put_flag(alloc, members, "private", *private),
    }
}
