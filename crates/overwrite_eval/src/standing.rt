//! What a member is granted in the channels of a guild, by the parts that decide it.

ghost use Rattle.std.specs.Prelude.{◌≡◌, ◌^◌, ◌<◌, ◌↔◌, ℕ, None, IsTrue, IfSome, is_some};
ghost use Rattle.collections.specs.ById.{find_id, has_id};
ghost use Rattle.perm_bits.specs.Bits.{has_bit};
ghost use Rattle.guild_model.specs.Record.{channel_id};
ghost use Rattle.guild_model.specs.Sight.{granted, sees, sees_in, standing, is_in};
ghost use Rattle.overwrite_eval.specs.Stands.{IsStandingOf};

use crate::mask_source::MaskSource;
use crate::masks::{part_base, part_mask_from};
use crate::sight::{may_view, shows_thread};
use collections::ById;
use guild_model::{Channel, Guild, Member, Role, Thread, ThreadKind};
use perm_bits::Perms;
use snowflake_id::Snowflake;
use std::marker::Model;

/// What a member's sight rests on, in a record and in a client's view alike. The member's base mask is
/// worked out once, when the value is made, and serves for every channel.
#[derive(Drop)]
pub struct StandingRef<'a> {
    guild: Snowflake,
    owner: Snowflake,
    roles: &'a ById<Role>,
    channels: &'a ById<Channel>,
    me: &'a Member,
    base: Perms,
}

impl<'a> Model for StandingRef<'a> {
    ghost use Rattle.std.specs.Prelude.{◌≡◌, ◌<◌, ℕ};
    ghost use Rattle.perm_bits.specs.Bits.{has_bit};
    ghost use Rattle.guild_model.specs.Permissions.{part_base};
    ghost use Rattle.guild_model.specs.Sight.{Standing};

    ghost Value = { Standing };

    ghost view = { λ s. record {
      guild = s.guild;
      owner = s.owner;
      roles = s.roles.now;
      channels = s.channels.now;
      me = s.me.now;
    } };

    ghost invariant = { λ s. (b : ℕ) → b < 53
        → has_bit s.base b ≡ part_base s.guild s.owner s.roles.now s.me.now b };
}

impl<'a> StandingRef<'a> {
    /// The standing of a member by these parts of a guild.
    pub fn new(
        guild: Snowflake,
        owner: Snowflake,
        roles: &'a ById<Role>,
        channels: &'a ById<Channel>,
        me: &'a Member,
    ) -> StandingRef<'a>
        ensures { result ≡ record {
          guild = guild;
          owner = owner;
          roles = roles.now;
          channels = channels.now;
          me = me.now;
        } }
    {
        let base = part_base(guild, owner, roles.as_slice(), me);
        StandingRef {
            guild,
            owner,
            roles,
            channels,
            me,
            base,
        }
    }

    /// The standing of a member in a record.
    pub fn in_guild(guild: &'a Guild, me: &'a Member) -> StandingRef<'a>
        ensures { result ≡ standing guild.now me.now }
    {
        StandingRef::new(guild.id, guild.owner, &guild.roles, &guild.channels, me)
    }
}

impl StandingRef<'_> {
    // What the member may do in a channel that exists.
    fn mask_in(&self, channel: Snowflake) -> Option<Perms>
        ensures there { is_some result ≡ has_id channel_id channel self.now.channels }
        ensures bits { IfSome result (λ mask. (b : ℕ) → b < 53 → has_bit mask b ≡ granted self.now channel b) }
        ensures none { result ≡ None → find_id channel_id channel self.now.channels ≡ None }
    {
        match self.channels.get(channel.0) {
            Some(channel) => Some(part_mask_from(self.guild, self.me, channel, self.base)),
            None => None,
        }
    }

    /// What the member may do in a channel: nothing in one that does not exist.
    #[tactic(auto, using(perm_bits::proofs::BitSets::bit_sets))]
    pub fn mask(&self, channel: Snowflake) -> Perms
        ensures { (b : ℕ) → b < 53 → has_bit result b ≡ granted self.now channel b }
    {
        match self.mask_in(channel) {
            Some(mask) => mask,
            None => Perms::NONE,
        }
    }

    /// Whether the member has every one of these permissions in a channel. For a named one that is its
    /// bit.
    pub fn granted(&self, channel: Snowflake, permissions: Perms) -> bool
        ensures every { IsTrue result
            ↔ ((b : ℕ) → IsTrue (has_bit permissions b) → IsTrue (granted self.now channel b)) }
        ensures one { (b : ℕ) → permissions ≡ 2 ^ b → result ≡ granted self.now channel b }
    {
        // The number shows that no bit from 53 on is asked for.
        let _number = permissions.mask();
        self.mask(channel).has(permissions)
    }

    /// Whether the member sees a channel (Permissions, VIEW_CHANNEL).
    pub fn sees(&self, channel: Snowflake) -> bool
        ensures { result ≡ sees self.now channel }
    {
        may_view(self.mask(channel))
    }

    /// Whether the member sees a thread of a kind under a parent, as one that is in it or not (Threads,
    /// Private Threads).
    pub fn sees_in(&self, parent: Snowflake, kind: ThreadKind, joined: bool) -> bool
        ensures { result ≡ sees_in self.now parent kind joined }
    {
        shows_thread(self.mask(parent), kind, joined)
    }

    /// Whether the member sees a thread, archived or not (Threads, Private Threads).
    pub fn sees_thread(&self, thread: &Thread) -> bool
        ensures { result ≡ sees_in self.now thread.now.parent thread.now.kind
            (is_in self.now.me.user.id thread.now) }
    {
        let me = self.me;
        let joined = thread.members.contains(me.user.id.0);
        self.sees_in(thread.parent, thread.kind, joined)
    }
}

impl MaskSource for StandingRef<'_> {
    ghost stands_for = { λ standing s user. IsStandingOf s user standing };

    fn mask(&self, channel: Snowflake) -> Option<Perms> {
        self.mask_in(channel)
    }
}
