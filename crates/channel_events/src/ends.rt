//! What has to be known of the record before an edit of channels or overwrites.

ghost use Rattle.std.specs.Prelude.{◌≡◌, IfOk, map, filter};
ghost use Rattle.collections.specs.ById.{find_id};
ghost use Rattle.guild_model.specs.Record.{channel_id, speaks_in};
ghost use Rattle.channel_events.specs.Dispatches.{is_child};
ghost use Rattle.channel_events.specs.Ends.{end_of, before_end, before_overwrites, channel_note};

use channel_edit::ChannelEdit;
use collections::{Duplicate, Seq};
use guild_model::{Channel, Guild, Member, Voice};
use snowflake_id::Snowflake;
use std::alloc::{AllocError, Global};
use thread_sync::{ChannelSight, sight_of};

/// A channel that is deleted.
pub struct ChannelEnd {
    /// The channel as it was.
    pub channel: Channel,
    /// The voice states in it, ascending by user.
    pub voices: Seq<Voice>,
    /// The channels whose parent it was, ascending.
    pub children: Seq<Snowflake>,
}

impl Drop for ChannelEnd {
    fn drop(self) {
        let ChannelEnd {
            channel,
            voices,
            children,
        } = self;
        drop(channel);
        drop(voices);
        drop(children);
    }
}

/// What [`add_dispatches`](crate::add_dispatches) has to know of the record before an edit.
pub enum ChannelNote {
    /// Nothing: no channel is deleted, and no overwrites change.
    Nothing,
    /// What the viewer's member was granted in the channel whose overwrites change.
    Sight(ChannelSight),
    /// The channel that is deleted.
    Leaving(ChannelEnd),
}

impl Drop for ChannelNote {
    fn drop(self) {
        match self {
            ChannelNote::Nothing => {}
            ChannelNote::Sight(_) => {}
            ChannelNote::Leaving(held) => drop(held),
        }
    }
}

fn voices_in(alloc: Global, voices: &[Voice], channel: Snowflake) -> Result<Vec<Voice>, AllocError>
    ensures { IfOk result (λ found. found.items ≡ filter (speaks_in channel) voices.now) }
{
    voices
        .iter()
        .filter(|voice| voice.channel == channel)
        .copied()
        .collect(alloc)
}

fn children_of(
    alloc: Global,
    channels: &[Channel],
    parent: Snowflake,
) -> Result<Vec<Snowflake>, AllocError>
    ensures { IfOk result (λ ids. ids.items ≡ map channel_id (filter (is_child parent) channels.now)) }
{
    channels
        .iter()
        .filter(|channel| channel.parent == Some(parent))
        .map(|channel| channel.id)
        .collect(alloc)
}

fn end_of(alloc: Global, before: &Guild, channel: &Channel) -> Result<ChannelEnd, AllocError>
    ensures { IfOk result (λ end. end ≡ end_of before.now channel.now) }
{
    let voices = voices_in(alloc, before.voices.as_slice(), channel.id)?;
    let children = children_of(alloc, before.channels.as_slice(), channel.id)?;
    Ok(ChannelEnd {
        channel: channel.duplicate(alloc)?,
        voices: Seq::from_vec(voices),
        children: Seq::from_vec(children),
    })
}

fn before_end(alloc: Global, before: &Guild, channel: Snowflake) -> Result<ChannelNote, AllocError>
    ensures { IfOk result (λ note. note
        ≡ before_end before.now (find_id channel_id channel before.now.channels)) }
{
    match before.channel(channel) {
        Some(found) => Ok(ChannelNote::Leaving(end_of(alloc, before, found)?)),
        None => Ok(ChannelNote::Nothing),
    }
}

fn before_overwrites(before: &Guild, me: &Member, channel: Snowflake) -> ChannelNote
    ensures { result ≡ before_overwrites before.now me.now channel }
{
    ChannelNote::Sight(sight_of(before, me, channel))
}

/// Keeps what [`add_dispatches`](crate::add_dispatches) has to know of the record before an edit, where the viewer's own
/// member is `me`.
pub fn note(
    alloc: Global,
    before: &Guild,
    me: &Member,
    edit: &ChannelEdit,
) -> Result<ChannelNote, AllocError>
    ensures { IfOk result (λ note. note ≡ channel_note before.now me.now edit.now) }
{
    match edit {
        ChannelEdit::ChannelCreate(_) | ChannelEdit::ChannelUpdate(_) => Ok(ChannelNote::Nothing),
        ChannelEdit::ChannelDelete { channel } => before_end(alloc, before, *channel),
        ChannelEdit::OverwriteSet(edit) => Ok(before_overwrites(before, me, edit.channel)),
        ChannelEdit::OverwriteDelete(edit) => Ok(before_overwrites(before, me, edit.channel)),
    }
}
