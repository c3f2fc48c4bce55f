//! `channel_update`: replaces a channel's name, parent and position; its type and its overwrites stay
//! (Gateway Events, Channel Update).

ghost use Rattle.std.specs.Prelude.{◌≡◌, None, true, refl, IfOk};
ghost use Rattle.guild_model.specs.Tests.{outcome};
ghost use Rattle.guild_model.specs.Record.{channel_id};
ghost use Rattle.collections.specs.ById.{find_id};
ghost use Rattle.channel_edit.specs.Channels.{channel_update_verdict, channel_updated, wrong_parent_of, with_settings};

use crate::parent::{fits_parent, knows_parent};
use collections::{Change, Text};
use guild_model::{Channel, Guild, Verdict, limits, rules};
use snowflake_id::Snowflake;
use std::alloc::{AllocError, Global};

/// A channel's new name, parent and position.
#[derive(Drop)]
pub struct ChannelUpdate {
    pub channel: Snowflake,
    pub name: Text,
    pub parent: Option<Snowflake>,
    pub position: u32,
}

impl ChannelUpdate {
    /// An equal value.
    pub fn copy(&self, alloc: Global) -> Result<ChannelUpdate, AllocError>
        ensures { IfOk result (λ copy. copy ≡ self.now) }
    {
        Ok(ChannelUpdate {
            channel: self.channel,
            name: self.name.copy(alloc)?,
            parent: self.parent,
            position: self.position,
        })
    }
}

fn fits_parent_of(
    guild: &Guild,
    channel: Snowflake,
    parent: &Option<Snowflake>,
) -> Result<(), Verdict>
    ensures { result ≡ outcome (wrong_parent_of guild.now (find_id channel_id channel guild.now.channels) parent.now) }
{
    match guild.channels.get(channel.0) {
        Some(channel) => fits_parent(guild, channel.kind, parent),
        None => Ok(()),
    }
}

/// Refused in this order: `UnknownChannel`, `UnknownChannel` for the parent, `WrongType` for it,
/// `TooLong` for the name.
pub fn check(guild: &Guild, edit: &ChannelUpdate) -> Result<(), Verdict>
    ensures { result ≡ outcome (channel_update_verdict guild.now edit.now) }
{
    rules::knows_channel(guild, edit.channel)?;
    knows_parent(guild, &edit.parent)?;
    fits_parent_of(guild, edit.channel, &edit.parent)?;
    rules::within(&edit.name, limits::NAME_BYTES)
}

impl Change<Channel> for ChannelUpdate {
    ghost changed = { λ change c. with_settings change c };

    fn change(self, channel: &mut Channel) {
        channel.name = self.name;
        channel.parent = self.parent;
        channel.position = self.position;
    }

    ghost keeps_key = { λ change c. refl };
}

/// Sets name, parent and position.
pub fn apply(guild: &mut Guild, edit: ChannelUpdate)
    requires open { guild.old.opened ≡ true }
    requires accepted { channel_update_verdict guild.old edit ≡ None }
    ensures { guild.new ≡ channel_updated guild.old edit }
{
    let channel = edit.channel;
    guild.channels.change(channel.0, edit);
}
