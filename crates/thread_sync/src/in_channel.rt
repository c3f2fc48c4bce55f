//! What a change of one channel's overwrites uncovers, by the sight of that channel before it.

ghost use Rattle.std.specs.Prelude.{◌≡◌, IfOk};
ghost use Rattle.thread_sync.specs.ChannelSights.{sight_of, by_sight};
ghost use Rattle.thread_sync.specs.Sync.{list_sync};

use crate::channel_sight::{ChannelSight, sight_in};
use crate::list_sync::list_sync;
use dispatch_types::Dispatch;
use guild_model::{Guild, Member};
use overwrite_eval::StandingRef;
use snowflake_id::Snowflake;
use std::alloc::{AllocError, Global};

/// What a member is granted in a channel, as far as sight goes (Permissions, VIEW_CHANNEL,
/// MANAGE_THREADS).
pub fn sight_of(guild: &Guild, me: &Member, channel: Snowflake) -> ChannelSight
    ensures { result ≡ sight_of guild.now me.now channel }
{
    let standing = StandingRef::in_guild(guild, me);
    sight_in(&standing, me.user.id, channel)
}

/// The sync of what a member sees of a channel now and did not see before, `before` being its sight of
/// it then (Channels Resource, Edit Channel Permissions; Gateway Events, Thread List Sync). It looks at
/// threads only if that sight grew.
pub fn uncovered_in_channel(
    alloc: Global,
    before: &ChannelSight,
    guild: &Guild,
    me: &Member,
) -> Result<Option<Dispatch>, AllocError>
    ensures { IfOk result (λ told. told ≡ list_sync (by_sight before.now)
        (by_sight (sight_of guild.now me.now before.now.channel)) guild.now me.now.user.id) }
{
    let now = sight_of(guild, me, before.channel);
    if !now.views || before.covers(&now) {
        return Ok(None);
    }
    list_sync(alloc, before, &now, guild, me.user.id)
}
