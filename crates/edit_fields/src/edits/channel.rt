//! Reads and writes the fields of the edits of channels and their overwrites.

ghost use Rattle.std.specs.Prelude.{◌≡◌, OnOk};
ghost use Rattle.json_view.specs.Nodes.{view};
ghost use Rattle.edit_fields.specs.Fault.{UnlessMemory};
ghost use Rattle.edit_fields.specs.Fits.{IdFits, NullableIdFits, MaskFits, ChannelEditFits};
ghost use Rattle.edit_fields.specs.Members.{HasPut};
ghost use Rattle.edit_fields.specs.ChannelEdits.{channel_create_from, channel_update_from, overwrite_set_from, overwrite_delete_from, channel_edit_from, channel_edit_name, channel_create_fields, channel_update_fields, overwrite_set_fields, overwrite_delete_fields, channel_edit_fields};

use crate::LineFault;
use crate::fields::{
    flag_at, id_at, kind_at, mask_at, nullable_id_at, overwrite_kind_at, position_at, text_at,
};
use crate::members::{put_flag, put_id, put_mask, put_nullable_id, put_number, put_text};
use crate::names::ChannelEditName;
use channel_edit::{ChannelCreate, ChannelEdit, ChannelUpdate, OverwriteDelete, OverwriteSet};
use collections::Text;
use json_view::Node;
use serde_json::{Map, Value};
use std::alloc::{AllocError, Global};

fn channel_create_from(alloc: Global, object: &Node<'_>) -> Result<ChannelCreate, LineFault>
    ensures { UnlessMemory result (channel_create_from (view object.now)) }
{
    let channel = id_at(object, "channel")?;
    let kind = kind_at(object, "type")?;
    let name = text_at(object, "name")?;
    let parent = nullable_id_at(object, "parent")?;
    let position = position_at(object, "position")?;
    let sync = flag_at(object, "sync")?;
    let name = Text::new(alloc, name)?;
    Ok(ChannelCreate {
        channel,
        kind,
        name,
        parent,
        position,
        sync,
    })
}

fn channel_update_from(alloc: Global, object: &Node<'_>) -> Result<ChannelUpdate, LineFault>
    ensures { UnlessMemory result (channel_update_from (view object.now)) }
{
    let channel = id_at(object, "channel")?;
    let name = text_at(object, "name")?;
    let parent = nullable_id_at(object, "parent")?;
    let position = position_at(object, "position")?;
    let name = Text::new(alloc, name)?;
    Ok(ChannelUpdate {
        channel,
        name,
        parent,
        position,
    })
}

fn overwrite_set_from(object: &Node<'_>) -> Result<OverwriteSet, LineFault>
    ensures { result ≡ overwrite_set_from (view object.now) }
{
    let channel = id_at(object, "channel")?;
    let id = id_at(object, "id")?;
    let kind = overwrite_kind_at(object, "type")?;
    let allow = mask_at(object, "allow")?;
    let deny = mask_at(object, "deny")?;
    Ok(OverwriteSet {
        channel,
        id,
        kind,
        allow,
        deny,
    })
}

fn overwrite_delete_from(object: &Node<'_>) -> Result<OverwriteDelete, LineFault>
    ensures { result ≡ overwrite_delete_from (view object.now) }
{
    let channel = id_at(object, "channel")?;
    let id = id_at(object, "id")?;
    let kind = overwrite_kind_at(object, "type")?;
    Ok(OverwriteDelete { channel, id, kind })
}

/// Reads the edit of this name from the fields of an object.
pub fn read(
    alloc: Global,
    name: ChannelEditName,
    object: &Node<'_>,
) -> Result<ChannelEdit, LineFault>
    ensures { UnlessMemory result (channel_edit_from name (view object.now)) }
{
    Ok(match name {
        ChannelEditName::ChannelCreate => {
            ChannelEdit::ChannelCreate(channel_create_from(alloc, object)?)
        }
        ChannelEditName::ChannelUpdate => {
            ChannelEdit::ChannelUpdate(channel_update_from(alloc, object)?)
        }
        ChannelEditName::ChannelDelete => ChannelEdit::ChannelDelete {
            channel: id_at(object, "channel")?,
        },
        ChannelEditName::OverwriteSet => ChannelEdit::OverwriteSet(overwrite_set_from(object)?),
        ChannelEditName::OverwriteDelete => {
            ChannelEdit::OverwriteDelete(overwrite_delete_from(object)?)
        }
    })
}

/// The name of an edit.
pub fn name_of(edit: &ChannelEdit) -> ChannelEditName
    ensures { result ≡ channel_edit_name edit.now }
{
    match edit {
        ChannelEdit::ChannelCreate(_) => ChannelEditName::ChannelCreate,
        ChannelEdit::ChannelUpdate(_) => ChannelEditName::ChannelUpdate,
        ChannelEdit::ChannelDelete { .. } => ChannelEditName::ChannelDelete,
        ChannelEdit::OverwriteSet(_) => ChannelEditName::OverwriteSet,
        ChannelEdit::OverwriteDelete(_) => ChannelEditName::OverwriteDelete,
    }
}

fn put_channel_create(
    alloc: Global,
    members: &mut Map<String, Value>,
    edit: &ChannelCreate,
) -> Result<(), AllocError>
    ensures put { OnOk result
        (HasPut members.old.entries members.new.entries (channel_create_fields edit.now)) }
    ensures fits { OnOk result (IdFits edit.now.channel × NullableIdFits edit.now.parent) }
{
    put_id(alloc, members, "channel", edit.channel)?;
    put_number(alloc, members, "type", edit.kind.number())?;
    put_text(alloc, members, "name", &edit.name)?;
    put_nullable_id(alloc, members, "parent", edit.parent)?;
    put_number(alloc, members, "position", u64::from(edit.position))?;
    put_flag(alloc, members, "sync", edit.sync)?;
    Ok(())
}

fn put_channel_update(
    alloc: Global,
    members: &mut Map<String, Value>,
    edit: &ChannelUpdate,
) -> Result<(), AllocError>
    ensures put { OnOk result
        (HasPut members.old.entries members.new.entries (channel_update_fields edit.now)) }
    ensures fits { OnOk result (IdFits edit.now.channel × NullableIdFits edit.now.parent) }
{
    put_id(alloc, members, "channel", edit.channel)?;
    put_text(alloc, members, "name", &edit.name)?;
    put_nullable_id(alloc, members, "parent", edit.parent)?;
    put_number(alloc, members, "position", u64::from(edit.position))?;
    Ok(())
}

fn put_overwrite_set(
    alloc: Global,
    members: &mut Map<String, Value>,
    edit: &OverwriteSet,
) -> Result<(), AllocError>
    ensures put { OnOk result
        (HasPut members.old.entries members.new.entries (overwrite_set_fields edit.now)) }
    ensures fits { OnOk result
        (IdFits edit.now.channel × IdFits edit.now.id
        × MaskFits edit.now.allow × MaskFits edit.now.deny) }
{
    put_id(alloc, members, "channel", edit.channel)?;
    put_id(alloc, members, "id", edit.id)?;
    put_number(alloc, members, "type", edit.kind.number())?;
    put_mask(alloc, members, "allow", edit.allow)?;
    put_mask(alloc, members, "deny", edit.deny)?;
    Ok(())
}

fn put_overwrite_delete(
    alloc: Global,
    members: &mut Map<String, Value>,
    edit: &OverwriteDelete,
) -> Result<(), AllocError>
    ensures put { OnOk result
        (HasPut members.old.entries members.new.entries (overwrite_delete_fields edit.now)) }
    ensures fits { OnOk result (IdFits edit.now.channel × IdFits edit.now.id) }
{
    put_id(alloc, members, "channel", edit.channel)?;
    put_id(alloc, members, "id", edit.id)?;
    put_number(alloc, members, "type", edit.kind.number())?;
    Ok(())
}

/// Puts the fields of an edit into an object.
pub fn put(
    alloc: Global,
    members: &mut Map<String, Value>,
    edit: &ChannelEdit,
) -> Result<(), AllocError>
    ensures put { OnOk result
        (HasPut members.old.entries members.new.entries (channel_edit_fields edit.now)) }
    ensures fits { OnOk result (ChannelEditFits edit.now) }
{
    match edit {
        ChannelEdit::ChannelCreate(edit) => put_channel_create(alloc, members, edit),
        ChannelEdit::ChannelUpdate(edit) => put_channel_update(alloc, members, edit),
        ChannelEdit::ChannelDelete { channel } => put_id(alloc, members, "channel", *channel),
        ChannelEdit::OverwriteSet(edit) => put_overwrite_set(alloc, members, edit),
        ChannelEdit::OverwriteDelete(edit) => put_overwrite_delete(alloc, members, edit),
    }
}
