//! What a member is granted in the channels that it sees, by what answers its masks.

ghost use Rattle.std.specs.Prelude.{◌≡◌, Some, IfOk};
ghost use Rattle.collections.specs.ById.{find_id};
ghost use Rattle.guild_model.specs.declared.member.Member.{Member as AMember};
ghost use Rattle.guild_model.specs.Record.{Record, member_id};
ghost use Rattle.guild_model.specs.Sight.{standing};
ghost use Rattle.thread_sync.specs.ChannelSights.{sight_of, sights};

use crate::channel_sight::ChannelSight;
use collections::ById;
use guild_model::{Guild, Member};
use overwrite_eval::MaskSource;
use perm_bits::Perms;
use snowflake_id::Snowflake;
use std::alloc::{AllocError, Global};

// The sight of a user in a channel, by its masks.
fn sight_by<M: MaskSource>(masks: &M, user: Snowflake, channel: Snowflake) -> ChannelSight
    ensures { (s : Record) (me : AMember) → M.stands_for masks.now s user → find_id member_id user s.members ≡ Some me
        → result ≡ sight_of s me channel }
{
    match masks.mask(channel) {
        Some(mask) => ChannelSight {
            channel,
            user,
            views: mask.has(Perms::VIEW_CHANNEL),
            manages: mask.has(Perms::MANAGE_THREADS),
        },
        None => ChannelSight {
            channel,
            user,
            views: false,
            manages: false,
        },
    }
}

/// What a member is granted in those channels that it sees, as far as sight goes, ascending, by what answers its
/// user's masks (Permissions, VIEW_CHANNEL, MANAGE_THREADS). No mask is worked out where they are kept.
///
/// # Errors
/// Out of memory.
pub fn sights_by<M: MaskSource>(
    alloc: Global,
    guild: &Guild,
    me: &Member,
    masks: &M,
) -> Result<ById<ChannelSight>, AllocError>
    requires stands { M.stands_for masks.now guild.now me.now.user.id }
    requires mine { find_id member_id me.now.user.id guild.now.members ≡ Some me.now }
    ensures { IfOk result (λ found. found ≡ sights (standing guild.now me.now)) }
{
    let mut seen = Vec::with_capacity(alloc, guild.channels.len())?;
    for channel in guild.channels.as_slice() {
        let sight = sight_by(masks, me.user.id, channel.id);
        if sight.views {
            seen.push(sight)?;
        }
    }
    Ok(ById::from_ascending(seen))
}
