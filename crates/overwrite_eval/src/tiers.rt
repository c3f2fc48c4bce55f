//! The tiers of a channel's overwrites: those of @everyone, of held roles, and of the member.

ghost use Rattle.std.specs.Prelude.{◌≡◌, ℕ, ◌||◌, ◌&&◌, not, unwrap_or};
ghost use Rattle.collections.specs.ById.{IsById};
ghost use Rattle.perm_bits.specs.Bits.{has_bit};
ghost use Rattle.guild_model.specs.declared.member.Member.{Member as ModelMember};
ghost use Rattle.guild_model.specs.declared.channel.Overwrites.{Overwrites as ModelOverwrites};
ghost use Rattle.guild_model.specs.Record.{overwrite_id};
ghost use Rattle.guild_model.specs.Permissions.{is_of, named};
ghost use Rattle.overwrite_eval.specs.Tiers.{Unites, AreOf};

use collections::find;
use guild_model::{Member, Overwrite, Overwrites};
use perm_bits::Perms;
use snowflake_id::Snowflake;

/// What the overwrites of one tier allow and deny, united.
#[derive(Clone, Copy)]
pub(crate) struct Tier {
    allow: Perms,
    deny: Perms,
}

impl Tier {
    pub(crate) const NONE: Tier = Tier {
        allow: Perms::NONE,
        deny: Perms::NONE,
    };

    fn of(overwrite: &Overwrite) -> Tier
        ensures { result ≡ record { allow = overwrite.now.allow; deny = overwrite.now.deny } }
    {
        Tier {
            allow: overwrite.allow,
            deny: overwrite.deny,
        }
    }

    pub(crate) fn add(&mut self, overwrite: &Overwrite, belongs: bool)
        ensures allow { (b : ℕ)
            → has_bit self.new.allow b
            ≡ (has_bit self.old.allow b || (belongs && has_bit overwrite.now.allow b)) }
        ensures deny { (b : ℕ)
            → has_bit self.new.deny b
            ≡ (has_bit self.old.deny b || (belongs && has_bit overwrite.now.deny b)) }
    {
        if belongs {
            self.allow = self.allow.union(overwrite.allow);
            self.deny = self.deny.union(overwrite.deny);
        }
    }

    // The mask after this tier: what it denies is removed, then what it allows is added.
    fn apply(self, mask: Perms) -> Perms
        ensures { (b : ℕ)
            → has_bit result b ≡ ((has_bit mask b && not (has_bit self.deny b)) || has_bit self.allow b) }
    {
        mask.without(self.deny).union(self.allow)
    }
}

/// The tier of the member's own overwrite, which is empty where there is none.
pub(crate) fn own_tier(user: Snowflake, overwrites: &[Overwrite]) -> Tier
    requires { IsById overwrite_id overwrites.now }
    ensures { Unites (is_of user) overwrites.now result }
{
    match find(overwrites, user.0) {
        Some(overwrite) => Tier::of(overwrite),
        None => Tier::NONE,
    }
}

/// The tiers of a channel's overwrites for a member, in the order in which they apply.
#[derive(Clone, Copy)]
pub(crate) struct Tiers {
    pub everyone: Tier,
    pub held: Tier,
    pub own: Tier,
}

impl Tiers {
    pub(crate) fn of(guild: Snowflake, member: &Member, overwrites: &Overwrites) -> Tiers
        ensures { AreOf guild member.now overwrites.now result }
    {
        let mut everyone = Tier::NONE;
        let mut held = Tier::NONE;
        for overwrite in overwrites.roles.as_slice() {
            everyone.add(overwrite, overwrite.id == guild);
            held.add(overwrite, member.roles.contains(overwrite.id.0));
        }
        Tiers {
            everyone,
            held,
            own: own_tier(member.user.id, overwrites.members.as_slice()),
        }
    }

    // The mask after all tiers.
    pub(crate) fn apply(self, base: Perms) -> Perms
        ensures { (guild : ℕ) (m : ModelMember) (os : ModelOverwrites) → AreOf guild m os self
            → (b : ℕ) → has_bit result b ≡ unwrap_or (named guild m os b) (has_bit base b) }
    {
        let mask = self.everyone.apply(base);
        let mask = self.held.apply(mask);
        self.own.apply(mask)
    }
}
