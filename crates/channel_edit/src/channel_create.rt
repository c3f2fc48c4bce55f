//! `channel_create`: creates a channel (Gateway Events, Channel Create).

ghost use Rattle.std.specs.Prelude.{◌≡◌, None, true, OnOk, OnErr, IfOk};
ghost use Rattle.guild_model.specs.Tests.{outcome};
ghost use Rattle.guild_model.specs.Record.{channel_id};
ghost use Rattle.collections.specs.ById.{find_id};
ghost use Rattle.channel_edit.specs.Channels.{channel_create_verdict, channel_created, first_overwrites, overwrites_there};

use crate::parent::{fits_parent, knows_parent};
use collections::{Duplicate, Text};
use guild_model::{Channel, ChannelKind, Guild, Overwrites, Verdict, limits, rules};
use snowflake_id::Snowflake;
use std::alloc::{AllocError, Global};

/// A new channel. With `sync` and a parent it has the parent's overwrites, else none.
#[derive(Drop)]
pub struct ChannelCreate {
    pub channel: Snowflake,
    pub kind: ChannelKind,
    pub name: Text,
    pub parent: Option<Snowflake>,
    pub position: u32,
    pub sync: bool,
}

impl ChannelCreate {
    /// An equal value.
    pub fn copy(&self, alloc: Global) -> Result<ChannelCreate, AllocError>
        ensures { IfOk result (λ copy. copy ≡ self.now) }
    {
        Ok(ChannelCreate {
            channel: self.channel,
            kind: self.kind,
            name: self.name.copy(alloc)?,
            parent: self.parent,
            position: self.position,
            sync: self.sync,
        })
    }
}

/// Refused in this order: `IdTaken` where a channel or a thread has the id, `UnknownChannel` for the
/// parent, `WrongType` for it, `TooMany`, `TooLong` for the name.
pub fn check(guild: &Guild, edit: &ChannelCreate) -> Result<(), Verdict>
    ensures { result ≡ outcome (channel_create_verdict guild.now edit.now) }
{
    if guild.has_channel_or_thread(edit.channel) {
        return Err(Verdict::IdTaken);
    }
    knows_parent(guild, &edit.parent)?;
    fits_parent(guild, edit.kind, &edit.parent)?;
    rules::has_room(guild.channels.len(), limits::CHANNELS)?;
    rules::within(&edit.name, limits::NAME_BYTES)
}

fn copied(alloc: Global, guild: &Guild, channel: Snowflake) -> Result<Overwrites, AllocError>
    ensures { IfOk result (λ os. os ≡ overwrites_there (find_id channel_id channel guild.now.channels)) }
{
    match guild.channels.get(channel.0) {
        Some(channel) => channel.overwrites.duplicate(alloc),
        None => Ok(Overwrites::new(alloc)),
    }
}

fn overwrites_for(
    alloc: Global,
    guild: &Guild,
    parent: &Option<Snowflake>,
    sync: bool,
) -> Result<Overwrites, AllocError>
    ensures { IfOk result (λ os. os ≡ first_overwrites guild.now parent.now sync) }
{
    match parent {
        Some(parent) if sync => copied(alloc, guild, *parent),
        _ => Ok(Overwrites::new(alloc)),
    }
}

/// Adds the channel. If it runs out of memory, the record stays as it was.
pub fn apply(alloc: Global, guild: &mut Guild, edit: ChannelCreate) -> Result<(), AllocError>
    requires open { guild.old.opened ≡ true }
    requires accepted { channel_create_verdict guild.old edit ≡ None }
    ensures ok { OnOk result (guild.new ≡ channel_created guild.old edit) }
    ensures err { OnErr result (guild.new ≡ guild.old) }
{
    let overwrites = overwrites_for(alloc, guild, &edit.parent, edit.sync)?;
    guild.channels.insert(Channel {
        id: edit.channel,
        kind: edit.kind,
        name: edit.name,
        parent: edit.parent,
        position: edit.position,
        overwrites,
    })?;
    Ok(())
}
