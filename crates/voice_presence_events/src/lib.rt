//! What the edits of voice states and presences owe to a viewer that is served before and after
//! them (Gateway Events, Voice State Update and Presence Update).
#![tactic(auto)]

ghost use Rattle.std.specs.Prelude.{◌≡◌, ◌++◌, OnOk};
ghost use Rattle.voice_presence_events.specs.Dispatches.{voice_update, presence_update, voice_presence_dispatches};

use dispatch_types::{Dispatch, PresenceObject, VoiceObject, VoiceStateUpdate};
use event_views::Recipient;
use intent_set::Kind;
use std::alloc::AllocError;
use voice_presence::{PresenceSet, VoicePresenceEdit, VoiceSet};

// VOICE_STATE_UPDATE of a voice state that is set.
fn add_voice(
    to: &Recipient<'_>,
    edit: &VoiceSet,
    list: &mut Vec<Dispatch>,
) -> Result<(), AllocError>
    ensures { OnOk result (list.new.items
        ≡ list.old.items ++ voice_update to.now.after.id to.now.viewer edit.now) }
{
    if !to.asks(Kind::VoiceStateUpdate, false) {
        return Ok(());
    }
    let voice = VoiceObject {
        user: edit.user,
        channel: edit.channel,
        self_mute: edit.self_mute,
        self_deaf: edit.self_deaf,
    };
    let guild = to.guild();
    list.push(Dispatch::VoiceStateUpdate(VoiceStateUpdate { guild, voice }))?;
    Ok(())
}

// PRESENCE_UPDATE of a presence that is set.
fn add_presence(
    to: &Recipient<'_>,
    edit: &PresenceSet,
    list: &mut Vec<Dispatch>,
) -> Result<(), AllocError>
    ensures { OnOk result (list.new.items
        ≡ list.old.items ++ presence_update to.now.after.id to.now.viewer edit.now) }
{
    if !to.asks(Kind::PresenceUpdate, false) {
        return Ok(());
    }
    list.push(Dispatch::PresenceUpdate(PresenceObject {
        guild: to.guild(),
        user: edit.user,
        status: edit.status.shown(),
    }))?;
    Ok(())
}

/// Adds the dispatches of an edit, by the record after it.
pub fn add_dispatches(
    to: &Recipient<'_>,
    edit: &VoicePresenceEdit,
    list: &mut Vec<Dispatch>,
) -> Result<(), AllocError>
    ensures { OnOk result (list.new.items
        ≡ list.old.items ++ voice_presence_dispatches to.now.after to.now.viewer edit.now) }
{
    match edit {
        VoicePresenceEdit::VoiceSet(edit) => add_voice(to, edit, list),
        VoicePresenceEdit::PresenceSet(edit) => add_presence(to, edit, list),
    }
}
