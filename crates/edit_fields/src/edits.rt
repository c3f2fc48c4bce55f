//! Reads and writes the fields of edits, by their names.

ghost use Rattle.std.specs.Prelude.{◌≡◌, OnOk};
ghost use Rattle.json_view.specs.Nodes.{view};
ghost use Rattle.edit_fields.specs.Fault.{UnlessMemory};
ghost use Rattle.edit_fields.specs.Fits.{EditFits};
ghost use Rattle.edit_fields.specs.Members.{HasPut};
ghost use Rattle.edit_fields.specs.Edits.{edit_from, edit_name, edit_fields};

mod channel;
mod guild;
mod message;
mod role_member;
mod thread;
mod voice;

use crate::LineFault;
use crate::names::EditName;
use edit_apply::Edit;
use json_view::Node;
use serde_json::{Map, Value};
use std::alloc::{AllocError, Global};

/// Reads the edit of this name from the fields of an object.
pub fn read(alloc: Global, name: EditName, object: &Node<'_>) -> Result<Edit, LineFault>
    ensures { UnlessMemory result (edit_from name (view object.now)) }
{
    Ok(match name {
        EditName::Guild(name) => Edit::Guild(guild::read(alloc, name, object)?),
        EditName::RoleMember(name) => Edit::RoleMember(role_member::read(alloc, name, object)?),
        EditName::Channel(name) => Edit::Channel(channel::read(alloc, name, object)?),
        EditName::Thread(name) => Edit::Thread(thread::read(alloc, name, object)?),
        EditName::VoicePresence(name) => Edit::VoicePresence(voice::read(name, object)?),
        EditName::Message(name) => Edit::Message(message::read(alloc, name, object)?),
    })
}

/// The name of an edit, as step files write it.
pub fn name_of(edit: &Edit) -> EditName
    ensures { result ≡ edit_name edit.now }
{
    match edit {
        Edit::Guild(edit) => EditName::Guild(guild::name_of(edit)),
        Edit::RoleMember(edit) => EditName::RoleMember(role_member::name_of(edit)),
        Edit::Channel(edit) => EditName::Channel(channel::name_of(edit)),
        Edit::Thread(edit) => EditName::Thread(thread::name_of(edit)),
        Edit::VoicePresence(edit) => EditName::VoicePresence(voice::name_of(edit)),
        Edit::Message(edit) => EditName::Message(message::name_of(edit)),
    }
}

/// Puts the fields of an edit into an object.
pub fn put(alloc: Global, members: &mut Map<String, Value>, edit: &Edit) -> Result<(), AllocError>
    ensures put { OnOk result
        (HasPut members.old.entries members.new.entries (edit_fields edit.now)) }
    ensures fits { OnOk result (EditFits edit.now) }
{
    match edit {
        Edit::Guild(edit) => guild::put(alloc, members, edit),
        Edit::RoleMember(edit) => role_member::put(alloc, members, edit),
        Edit::Channel(edit) => channel::put(alloc, members, edit),
        Edit::Thread(edit) => thread::put(alloc, members, edit),
        Edit::VoicePresence(edit) => voice::put(alloc, members, edit),
        Edit::Message(edit) => message::put(alloc, members, edit),
    }
}
