//! The masks of a user in all channels of a guild.

ghost use Rattle.std.specs.Prelude.{◌≡◌, ◌+◌, ◌<◌, ◌≤◌, ℕ, IfOk, option_map};
ghost use Rattle.collections.specs.ById.{find_id};
ghost use Rattle.perm_bits.specs.Bits.{has_bit};
ghost use Rattle.guild_model.specs.Permissions.{base as base_has};
ghost use Rattle.overwrite_eval.specs.MaskIn.{IsMaskIn};
ghost use Rattle.mask_cache.specs.Masks.{masked_channel, mask_of};
ghost use Rattle.mask_cache.specs.Law.{all_overwrites};

use collections::{ById, Keyed};
use guild_model::Guild;
use overwrite_eval::mask_from;
use perm_bits::Perms;
use snowflake_id::Snowflake;
use std::alloc::{AllocError, Global};
use std::sync::ledger::Ledger;
use step_count::Steps;

/// What a user may do in a channel.
#[derive(Clone, Copy)]
pub struct ChannelMask {
    pub channel: Snowflake,
    pub mask: Perms,
}

impl Keyed for ChannelMask {
    ghost key = { λ m. m.channel };

    fn key(&self) -> u64 {
        self.channel.0
    }
}

// The mask in each channel of a guild, from the user's base mask.
pub(crate) fn channel_masks<L: Ledger>(
    alloc: Global,
    guild: &Guild,
    user: Snowflake,
    base: Perms,
    steps: &mut Steps<L>,
) -> Result<ById<ChannelMask>, AllocError>
    requires { (b : ℕ) → b < 53 → has_bit base b ≡ base_has guild.now user b }
    ensures masks { IfOk result (λ masks. (channel : ℕ)
        → IsMaskIn guild.now user channel (option_map mask_of (find_id masked_channel channel masks))) }
    ensures at_least { steps.old ≤ steps.new }
    ensures at_most { steps.new ≤ steps.old + all_overwrites guild.now }
{
    let channels = guild.channels.as_slice();
    let mut masks = Vec::with_capacity(alloc, channels.len())?;
    for channel in channels {
        let mask = mask_from(guild, user, channel.id, base, steps);
        masks.push(ChannelMask {
            channel: channel.id,
            mask,
        })?;
    }
    Ok(ById::from_ascending(masks))
}
