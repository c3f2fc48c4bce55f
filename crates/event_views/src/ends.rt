//! Voice states that end (Gateway Events, Voice State Update).

ghost use Rattle.std.specs.Prelude.{◌≡◌, ◌++◌, OnOk};
ghost use Rattle.event_views.specs.Ended.{voice_end, voice_ends};

use crate::recipient::Recipient;
use dispatch_types::{Dispatch, VoiceObject, VoiceStateUpdate};
use guild_model::Voice;
use intent_set::Kind;
use std::alloc::AllocError;

/// A voice state that ended, in wire form: without a channel, with the flags that it had (Voice
/// Resource, Voice State Object).
pub fn voice_end(voice: &Voice) -> VoiceObject
    ensures { result ≡ voice_end voice.now }
{
    VoiceObject {
        user: voice.user,
        channel: None,
        self_mute: voice.self_mute,
        self_deaf: voice.self_deaf,
    }
}

/// Adds VOICE_STATE_UPDATE of a voice state that ended.
pub fn add_voice_end(
    to: &Recipient<'_>,
    voice: &Voice,
    list: &mut Vec<Dispatch>,
) -> Result<(), AllocError>
    ensures { OnOk result (list.new.items ≡ list.old.items ++ voice_ends to.now.after.id to.now.viewer voice.now) }
{
    if !to.asks(Kind::VoiceStateUpdate, false) {
        return Ok(());
    }
    let update = VoiceStateUpdate {
        guild: to.guild(),
        voice: voice_end(voice),
    };
    list.push(Dispatch::VoiceStateUpdate(update))?;
    Ok(())
}
