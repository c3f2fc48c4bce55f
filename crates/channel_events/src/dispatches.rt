//! What an edit of channels or overwrites owes to a viewer that is served before and after it (Gateway
//! Events, Channels; Voice).

ghost use Rattle.std.specs.Prelude.{◌≡◌, ◌++◌, OnOk, flat_map};
ghost use Rattle.event_views.specs.Ended.{voice_ends};
ghost use Rattle.channel_events.specs.Dispatches.{created, updated, gone};
ghost use Rattle.channel_events.specs.ByNote.{ended_by_note, synced_by_note, rights_by_note, channel_by_note};

use crate::ends::ChannelNote;
use channel_edit::ChannelEdit;
use dispatch_types::{ChannelObject, Dispatch};
use event_views::{Recipient, add_voice_end};
use guild_model::{Channel, Voice};
use intent_set::Kind;
use snowflake_id::Snowflake;
use std::alloc::{AllocError, Global};
use thread_sync::uncovered_in_channel;

// Adds CHANNEL_CREATE of a channel.
fn add_created(
    alloc: Global,
    to: &Recipient<'_>,
    channel: Snowflake,
    list: &mut Vec<Dispatch>,
) -> Result<(), AllocError>
    ensures { OnOk result (list.new.items
        ≡ list.old.items ++ created to.now.after to.now.viewer channel) }
{
    if !to.asks(Kind::ChannelCreate, false) {
        return Ok(());
    }
    if let Some(found) = to.after.channel(channel) {
        let object = ChannelObject::of(alloc, to.guild(), found)?;
        list.push(Dispatch::ChannelCreate(object))?;
    }
    Ok(())
}

// Adds CHANNEL_UPDATE of a channel.
fn add_updated(
    alloc: Global,
    to: &Recipient<'_>,
    channel: Snowflake,
    list: &mut Vec<Dispatch>,
) -> Result<(), AllocError>
    ensures { OnOk result (list.new.items
        ≡ list.old.items ++ updated to.now.after to.now.viewer channel) }
{
    if !to.asks(Kind::ChannelUpdate, false) {
        return Ok(());
    }
    if let Some(found) = to.after.channel(channel) {
        let object = ChannelObject::of(alloc, to.guild(), found)?;
        list.push(Dispatch::ChannelUpdate(object))?;
    }
    Ok(())
}

// Adds VOICE_STATE_UPDATE of each user that was in voice in a channel.
fn add_each_left(
    to: &Recipient<'_>,
    voices: &[Voice],
    list: &mut Vec<Dispatch>,
) -> Result<(), AllocError>
    ensures { OnOk result (list.new.items
        ≡ list.old.items ++ flat_map (voice_ends to.now.after.id to.now.viewer) voices.now) }
{
    for voice in voices {
        add_voice_end(to, voice, list)?;
    }
    Ok(())
}

// Adds CHANNEL_UPDATE of each of these channels.
fn add_each_updated(
    alloc: Global,
    to: &Recipient<'_>,
    channels: &[Snowflake],
    list: &mut Vec<Dispatch>,
) -> Result<(), AllocError>
    ensures { OnOk result (list.new.items
        ≡ list.old.items ++ flat_map (updated to.now.after to.now.viewer) channels.now) }
{
    for channel in channels {
        add_updated(alloc, to, *channel, list)?;
    }
    Ok(())
}

// Adds CHANNEL_DELETE of a channel as it was.
fn add_gone(
    alloc: Global,
    to: &Recipient<'_>,
    channel: &Channel,
    list: &mut Vec<Dispatch>,
) -> Result<(), AllocError>
    ensures { OnOk result (list.new.items
        ≡ list.old.items ++ gone to.now.after to.now.viewer channel.now) }
{
    if !to.asks(Kind::ChannelDelete, false) {
        return Ok(());
    }
    let object = ChannelObject::of(alloc, to.guild(), channel)?;
    list.push(Dispatch::ChannelDelete(object))?;
    Ok(())
}

// Adds the end of a channel: of the voice states in it, of its children, and of the channel itself.
fn add_deleted(
    alloc: Global,
    note: &ChannelNote,
    to: &Recipient<'_>,
    list: &mut Vec<Dispatch>,
) -> Result<(), AllocError>
    ensures { OnOk result (list.new.items
        ≡ list.old.items ++ ended_by_note to.now.after to.now.viewer note.now) }
{
    if let ChannelNote::Leaving(end) = note {
        add_each_left(to, end.voices.as_slice(), list)?;
        add_each_updated(alloc, to, end.children.as_slice(), list)?;
        add_gone(alloc, to, &end.channel, list)?;
    }
    Ok(())
}

// Adds THREAD_LIST_SYNC of what a change of a channel's overwrites uncovers.
fn add_uncovered(
    alloc: Global,
    note: &ChannelNote,
    to: &Recipient<'_>,
    list: &mut Vec<Dispatch>,
) -> Result<(), AllocError>
    ensures { OnOk result (list.new.items
        ≡ list.old.items ++ synced_by_note to.now.after to.now.viewer note.now to.now.me) }
{
    let ChannelNote::Sight(before) = note else {
        return Ok(());
    };
    if !to.asks(Kind::ThreadListSync, false) {
        return Ok(());
    }
    if let Some(gains) = uncovered_in_channel(alloc, before, to.after, to.me)? {
        list.push(gains)?;
    }
    Ok(())
}

// Adds a change of overwrites: the channel, and then what the change uncovers.
fn add_rights(
    alloc: Global,
    note: &ChannelNote,
    to: &Recipient<'_>,
    channel: Snowflake,
    list: &mut Vec<Dispatch>,
) -> Result<(), AllocError>
    ensures { OnOk result (list.new.items
        ≡ list.old.items ++ rights_by_note to.now.after to.now.viewer note.now to.now.me channel) }
{
    add_updated(alloc, to, channel, list)?;
    add_uncovered(alloc, note, to, list)?;
    Ok(())
}

/// Adds what an accepted edit owes to a viewer, by what [`note`](crate::note) kept: each dispatch only
/// where the viewer's intents ask for it (Gateway, Gateway Intents).
pub fn add_dispatches(
    alloc: Global,
    note: &ChannelNote,
    to: &Recipient<'_>,
    edit: &ChannelEdit,
    list: &mut Vec<Dispatch>,
) -> Result<(), AllocError>
    ensures { OnOk result (list.new.items
        ≡ list.old.items ++ channel_by_note note.now to.now.after to.now.viewer to.now.me edit.now) }
{
    match edit {
        ChannelEdit::ChannelCreate(edit) => add_created(alloc, to, edit.channel, list),
        ChannelEdit::ChannelUpdate(edit) => add_updated(alloc, to, edit.channel, list),
        ChannelEdit::ChannelDelete { .. } => add_deleted(alloc, note, to, list),
        ChannelEdit::OverwriteSet(edit) => add_rights(alloc, note, to, edit.channel, list),
        ChannelEdit::OverwriteDelete(edit) => add_rights(alloc, note, to, edit.channel, list),
    }
}
