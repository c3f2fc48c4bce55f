//! Reads and writes the fields of the edits of voice states and presences.

ghost use Rattle.std.specs.Prelude.{◌≡◌, OnOk};
ghost use Rattle.json_view.specs.Nodes.{view};
ghost use Rattle.edit_fields.specs.Fits.{IdFits, NullableIdFits, VoicePresenceEditFits};
ghost use Rattle.edit_fields.specs.Members.{HasPut};
ghost use Rattle.edit_fields.specs.VoicePresenceEdits.{voice_set_from, presence_set_from, voice_presence_edit_from, voice_presence_edit_name, voice_set_fields, presence_set_fields, voice_presence_edit_fields};

use crate::LineFault;
use crate::fields::{flag_at, id_at, nullable_id_at, status_at};
use crate::members::{put_flag, put_id, put_nullable_id, put_str};
use crate::names::VoicePresenceEditName;
use json_view::Node;
use serde_json::{Map, Value};
use std::alloc::{AllocError, Global};
use voice_presence::{PresenceSet, VoicePresenceEdit, VoiceSet};

fn voice_set_from(object: &Node<'_>) -> Result<VoiceSet, LineFault>
    ensures { result ≡ voice_set_from (view object.now) }
{
    let user = id_at(object, "user")?;
    let channel = nullable_id_at(object, "channel")?;
    let self_mute = flag_at(object, "mute")?;
    let self_deaf = flag_at(object, "deaf")?;
    Ok(VoiceSet {
        user,
        channel,
        self_mute,
        self_deaf,
    })
}

fn presence_set_from(object: &Node<'_>) -> Result<PresenceSet, LineFault>
    ensures { result ≡ presence_set_from (view object.now) }
{
    let user = id_at(object, "user")?;
    let status = status_at(object, "status")?;
    Ok(PresenceSet { user, status })
}

/// Reads the edit of this name from the fields of an object.
pub fn read(name: VoicePresenceEditName, object: &Node<'_>) -> Result<VoicePresenceEdit, LineFault>
    ensures { result ≡ voice_presence_edit_from name (view object.now) }
{
    Ok(match name {
        VoicePresenceEditName::VoiceSet => VoicePresenceEdit::VoiceSet(voice_set_from(object)?),
        VoicePresenceEditName::PresenceSet => {
            VoicePresenceEdit::PresenceSet(presence_set_from(object)?)
        }
    })
}

/// The name of an edit.
pub fn name_of(edit: &VoicePresenceEdit) -> VoicePresenceEditName
    ensures { result ≡ voice_presence_edit_name edit.now }
{
    match edit {
        VoicePresenceEdit::VoiceSet(_) => VoicePresenceEditName::VoiceSet,
        VoicePresenceEdit::PresenceSet(_) => VoicePresenceEditName::PresenceSet,
    }
}

fn put_voice_set(
    alloc: Global,
    members: &mut Map<String, Value>,
    edit: &VoiceSet,
) -> Result<(), AllocError>
    ensures put { OnOk result
        (HasPut members.old.entries members.new.entries (voice_set_fields edit.now)) }
    ensures fits { OnOk result (IdFits edit.now.user × NullableIdFits edit.now.channel) }
{
    put_id(alloc, members, "user", edit.user)?;
    put_nullable_id(alloc, members, "channel", edit.channel)?;
    put_flag(alloc, members, "mute", edit.self_mute)?;
    put_flag(alloc, members, "deaf", edit.self_deaf)?;
    Ok(())
}

fn put_presence_set(
    alloc: Global,
    members: &mut Map<String, Value>,
    edit: &PresenceSet,
) -> Result<(), AllocError>
    ensures put { OnOk result
        (HasPut members.old.entries members.new.entries (presence_set_fields edit.now)) }
    ensures fits { OnOk result (IdFits edit.now.user) }
{
    put_id(alloc, members, "user", edit.user)?;
    put_str(alloc, members, "status", edit.status.name())?;
    Ok(())
}

/// Puts the fields of an edit into an object.
pub fn put(
    alloc: Global,
    members: &mut Map<String, Value>,
    edit: &VoicePresenceEdit,
) -> Result<(), AllocError>
    ensures put { OnOk result
        (HasPut members.old.entries members.new.entries (voice_presence_edit_fields edit.now)) }
    ensures fits { OnOk result (VoicePresenceEditFits edit.now) }
{
    match edit {
        VoicePresenceEdit::VoiceSet(edit) => put_voice_set(alloc, members, edit),
        VoicePresenceEdit::PresenceSet(edit) => put_presence_set(alloc, members, edit),
    }
}
