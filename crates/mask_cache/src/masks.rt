//! A user's masks in a guild, which are mended after each edit.

ghost use Rattle.std.specs.Prelude.{◌≡◌, ◌+◌, ◌<◌, ◌≤◌, ℕ, IfOk, OnOk};
ghost use Rattle.collections.specs.ById.{without_id};
ghost use Rattle.perm_bits.specs.Bits.{has_bit};
ghost use Rattle.guild_model.specs.Record.{Record};
ghost use Rattle.guild_model.specs.Permissions.{base as base_has};
ghost use Rattle.overwrite_eval.specs.Looks.{role_looks, overwrite_looks};
ghost use Rattle.mask_cache.specs.Masks.{UserMasks, MasksOf, HasSet, mask_in, masked_channel};
ghost use Rattle.mask_cache.specs.Law.{Follows, all_overwrites, mend_looks};

use crate::channel_mask::{ChannelMask, channel_masks};
use crate::mask_change::MaskChange;
use collections::ById;
use edit_apply::Edit;
use guild_model::Guild;
use overwrite_eval::{MaskSource, base_mask, mask_from};
use perm_bits::Perms;
use snowflake_id::Snowflake;
use std::alloc::{AllocError, Global};
use std::marker::{Brand, Model};
use std::sync::ledger::{Blank, Ledger};
use step_count::Steps;

/// What a user may do in a guild, and in each of its channels (Permissions, Permission Hierarchy and
/// Permission Overwrites).
pub struct Masks {
    alloc: Global,
    user: Snowflake,
    base: Perms,
    channels: ById<ChannelMask>,
}

impl Drop for Masks {
    fn drop(self) {
        let Masks {
            alloc: _,
            user: _,
            base: _,
            channels,
        } = self;
        drop(channels);
    }
}

impl Model for Masks {
    ghost use Rattle.mask_cache.specs.Masks.{UserMasks};

    ghost Value = { UserMasks };

    ghost view = { λ m. record { user = m.user; base = m.base; channels = m.channels } };
}

// The masks of a user on a record.
fn masks_of<L: Ledger>(
    alloc: Global,
    guild: &Guild,
    user: Snowflake,
    steps: &mut Steps<L>,
) -> Result<Masks, AllocError>
    ensures masks { IfOk result (λ masks. MasksOf guild.now user masks) }
    ensures at_least { steps.old ≤ steps.new }
    ensures at_most { steps.new ≤ steps.old + (role_looks guild.now user + all_overwrites guild.now) }
{
    let base = base_mask(guild, user, steps);
    let channels = channel_masks(alloc, guild, user, base, steps)?;
    Ok(Masks {
        alloc,
        user,
        base,
        channels,
    })
}

// The same from a blank ledger: what it took is not asked.
fn masks_on<L: Ledger>(
    alloc: Global,
    guild: &Guild,
    user: Snowflake,
    blank: Blank,
) -> Result<Masks, AllocError>
    requires name { blank.name ≡ L.name }
    requires parts { blank.parts ≡ L.parts }
    requires shared { 0 < blank.parts }
    ensures { IfOk result (λ masks. MasksOf guild.now user masks) }
{
    let mut steps = Steps::<L>::new(blank);
    masks_of(alloc, guild, user, &mut steps)
}

impl Masks {
    /// The masks of a user on a record. A stranger may do nothing.
    pub fn new(alloc: Global, guild: &Guild, user: Snowflake) -> Result<Masks, AllocError>
        ensures { IfOk result (λ masks. MasksOf guild.now user masks) }
    {
        masks_on::<Brand>(alloc, guild, user, Blank::new(1))
    }

    /// The user whose masks they are.
    pub fn user(&self) -> Snowflake
        ensures { result ≡ self.now.user }
    {
        self.user
    }

    /// What the user may do in a channel. `None` exactly if the channel does not exist.
    pub fn mask(&self, channel: Snowflake) -> Option<Perms>
        ensures { result ≡ mask_in self.now channel }
    {
        match self.channels.get(channel.0) {
            Some(found) => Some(found.mask),
            None => None,
        }
    }

    /// Makes the masks of a record those of the record after an accepted edit of it. The guild is
    /// open, and the user is a member before and after the edit. If it runs out of memory, the masks
    /// may only be dropped.
    pub fn mend<L: Ledger>(
        &mut self,
        guild: &Guild,
        edit: &Edit,
        steps: &mut Steps<L>,
    ) -> Result<(), AllocError>
        requires { (before : Record) × MasksOf before self.old.user self.old
            × Follows before edit.now guild.now self.old.user }
        ensures masks { OnOk result (MasksOf guild.now self.old.user self.new) }
        ensures at_least { steps.old ≤ steps.new }
        ensures at_most { steps.new ≤ steps.old + mend_looks guild.now self.old.user edit.now }
    {
        match MaskChange::of(edit, self.user()) {
            MaskChange::Nothing => Ok(()),
            MaskChange::Gone { channel } => {
                self.forget(channel);
                Ok(())
            }
            MaskChange::InChannel { channel } => self.set(guild, channel, steps),
            MaskChange::All => self.set_all(guild, steps),
        }
    }

    // Forgets the mask in a channel.
    fn forget(&mut self, channel: Snowflake)
        ensures { self.new ≡ record self.old {
          channels = without_id masked_channel channel self.old.channels;
        } }
    {
        self.channels.remove(channel.0);
    }

    // Works out the mask in a channel, from the base mask.
    fn set<L: Ledger>(
        &mut self,
        guild: &Guild,
        channel: Snowflake,
        steps: &mut Steps<L>,
    ) -> Result<(), AllocError>
        requires { (b : ℕ) → b < 53 → has_bit self.old.base b ≡ base_has guild.now self.old.user b }
        ensures masks { OnOk result (HasSet guild.now channel self.old self.new) }
        ensures at_least { steps.old ≤ steps.new }
        ensures at_most { steps.new ≤ steps.old + overwrite_looks guild.now channel }
    {
        let mask = mask_from(guild, self.user, channel, self.base, steps);
        self.channels.put(ChannelMask { channel, mask })?;
        Ok(())
    }

    // Works out the base mask and the masks in all channels.
    fn set_all<L: Ledger>(&mut self, guild: &Guild, steps: &mut Steps<L>) -> Result<(), AllocError>
        ensures masks { OnOk result (MasksOf guild.now self.old.user self.new) }
        ensures at_least { steps.old ≤ steps.new }
        ensures at_most { steps.new
            ≤ steps.old + (role_looks guild.now self.old.user + all_overwrites guild.now) }
    {
        self.base = base_mask(guild, self.user, steps);
        self.channels = channel_masks(self.alloc, guild, self.user, self.base, steps)?;
        Ok(())
    }
}

impl MaskSource for Masks {
    ghost stands_for = { λ m s user. MasksOf s user m };

    fn mask(&self, channel: Snowflake) -> Option<Perms> {
        Masks::mask(self, channel)
    }
}
