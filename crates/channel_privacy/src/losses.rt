//! Channels that are lost and gained (Gateway Events, Channel Create and Channel Delete).

ghost use Rattle.std.specs.Prelude.{◌≡◌, ◌++◌, ◌&&◌, OnOk, flat_map, filter, not};
ghost use Rattle.collections.specs.ById.{has_id};
ghost use Rattle.guild_model.specs.Record.{channel_id, speaks_in};
ghost use Rattle.guild_model.specs.Shown.{is_shown};
ghost use Rattle.channel_privacy.specs.Withheld.{lost, created, voice_there, gained};
ghost use Rattle.channel_privacy.specs.ByNote.{lost_by, losses_by, gained_by, gains_by};

use crate::before::ShownBefore;
use dispatch_types::{ChannelObject, Dispatch, VoiceObject, VoiceStateUpdate};
use event_views::Recipient;
use guild_model::{Channel, Voice};
use intent_set::Kind;
use overwrite_eval::StandingRef;
use snowflake_id::Snowflake;
use std::alloc::{AllocError, Global};

// CHANNEL_DELETE of a channel as it was.
fn add_lost(
    alloc: Global,
    to: &Recipient<'_>,
    channel: &Channel,
    list: &mut Vec<Dispatch>,
) -> Result<(), AllocError>
    ensures { OnOk result (list.new.items ≡ list.old.items ++ lost to.now.after.id to.now.viewer channel.now) }
{
    if !to.asks(Kind::ChannelDelete, false) {
        return Ok(());
    }
    let object = ChannelObject::of(alloc, to.guild(), channel)?;
    list.push(Dispatch::ChannelDelete(object))?;
    Ok(())
}

// Whether a channel that was shown stands and is shown no longer.
fn is_lost(
    private: bool,
    standing: &StandingRef<'_>,
    to: &Recipient<'_>,
    channel: Snowflake,
) -> bool
    ensures { result ≡ (has_id channel_id channel to.now.after.channels && not (is_shown private standing.now channel)) }
{
    let after = to.after;
    after.channel(channel).is_some() && !standing.shows(private, channel)
}

/// Adds CHANNEL_DELETE of each channel that was shown, stands and is shown no longer, as it was.
pub(crate) fn add_losses(
    alloc: Global,
    was: &ShownBefore,
    private: bool,
    to: &Recipient<'_>,
    list: &mut Vec<Dispatch>,
) -> Result<(), AllocError>
    ensures { OnOk result (list.new.items
        ≡ list.old.items ++ losses_by was.now private to.now.after to.now.me to.now.viewer) }
{
    let standing = StandingRef::in_guild(to.after, to.me);
    for channel in was.shown.as_slice() {
        if is_lost(private, &standing, to, channel.id) {
            add_lost(alloc, to, channel, list)?;
        }
    }
    Ok(())
}

// VOICE_STATE_UPDATE of a user in voice.
fn add_voice(to: &Recipient<'_>, voice: &Voice, list: &mut Vec<Dispatch>) -> Result<(), AllocError>
    ensures { OnOk result (list.new.items ≡ list.old.items ++ voice_there to.now.after to.now.viewer voice.now) }
{
    if !to.asks(Kind::VoiceStateUpdate, false) {
        return Ok(());
    }
    let update = VoiceStateUpdate {
        guild: to.guild(),
        voice: VoiceObject::of(voice),
    };
    list.push(Dispatch::VoiceStateUpdate(update))?;
    Ok(())
}

fn add_voices(
    to: &Recipient<'_>,
    channel: Snowflake,
    voices: &[Voice],
    list: &mut Vec<Dispatch>,
) -> Result<(), AllocError>
    ensures { OnOk result (list.new.items
        ≡ list.old.items ++ flat_map (voice_there to.now.after to.now.viewer) (filter (speaks_in channel) voices.now)) }
{
    for voice in voices {
        if voice.channel == channel {
            add_voice(to, voice, list)?;
        }
    }
    Ok(())
}

fn add_created(
    alloc: Global,
    to: &Recipient<'_>,
    channel: &Channel,
    list: &mut Vec<Dispatch>,
) -> Result<(), AllocError>
    ensures { OnOk result (list.new.items ≡ list.old.items ++ created to.now.after.id to.now.viewer channel.now) }
{
    if !to.asks(Kind::ChannelCreate, false) {
        return Ok(());
    }
    let object = ChannelObject::of(alloc, to.guild(), channel)?;
    list.push(Dispatch::ChannelCreate(object))?;
    Ok(())
}

// CHANNEL_CREATE of a channel as it is, and the voice states in it.
fn add_gained(
    alloc: Global,
    to: &Recipient<'_>,
    channel: &Channel,
    list: &mut Vec<Dispatch>,
) -> Result<(), AllocError>
    ensures { OnOk result (list.new.items ≡ list.old.items ++ gained to.now.after to.now.viewer channel.now) }
{
    let after = to.after;
    add_created(alloc, to, channel, list)?;
    add_voices(to, channel.id, after.voices.as_slice(), list)?;
    Ok(())
}

/// Adds CHANNEL_CREATE of each channel that stood, was not shown and is, each with the voice states in it.
pub(crate) fn add_gains(
    alloc: Global,
    was: &ShownBefore,
    private: bool,
    to: &Recipient<'_>,
    list: &mut Vec<Dispatch>,
) -> Result<(), AllocError>
    ensures { OnOk result (list.new.items
        ≡ list.old.items ++ gains_by was.now private to.now.after to.now.me to.now.viewer) }
{
    let after = to.after;
    let standing = StandingRef::in_guild(to.after, to.me);
    for channel in after.channels.as_slice() {
        if was.hidden.contains(channel.id.0) && standing.shows(private, channel.id) {
            add_gained(alloc, to, channel, list)?;
        }
    }
    Ok(())
}
