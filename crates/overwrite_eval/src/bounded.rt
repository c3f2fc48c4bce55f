//! Masks and sight of a user in a record, with a bound on the roles and overwrites that are looked at.

ghost use Rattle.std.specs.Prelude.{◌≡◌, ◌+◌, ◌<◌, ◌≤◌, ℕ, length};
ghost use Rattle.collections.specs.ById.{IsById};
ghost use Rattle.perm_bits.specs.Bits.{has_bit};
ghost use Rattle.guild_model.specs.Record.{role_id};
ghost use Rattle.guild_model.specs.Permissions.{base as base_has, grants, part_base, roles_have};
ghost use Rattle.guild_model.specs.Sight.{granted, standing, member_sees, sees_channel, sees_thread};
ghost use Rattle.overwrite_eval.specs.FromBase.{from_base};
ghost use Rattle.overwrite_eval.specs.Looks.{looks_of, role_looks, overwrite_looks, parent_looks};
ghost use Rattle.overwrite_eval.specs.Tiers.{AreOf};

use crate::masks::{base_from, is_administrator, role_mask};
use crate::sight::{may_view, shows_thread};
use crate::tiers::{Tier, Tiers, own_tier};
use guild_model::{Channel, Guild, Member, Overwrites, Role, Thread};
use perm_bits::Perms;
use snowflake_id::Snowflake;
use std::sync::ledger::Ledger;
use step_count::Steps;

// The masks of @everyone and of the held roles, united, with a step for each.
fn roles_mask<L: Ledger>(
    guild: Snowflake,
    roles: &[Role],
    held: &[Snowflake],
    steps: &mut Steps<L>,
) -> Perms
    requires { IsById role_id roles.now }
    ensures bits { (b : ℕ) → has_bit result b ≡ roles_have guild roles.now held.now b }
    ensures looks { steps.new ≡ steps.old + (length held.now + 1) }
{
    steps.tick();
    let mut mask = role_mask(roles, guild);
    for id in held {
        steps.tick();
        mask = mask.union(role_mask(roles, *id));
    }
    mask
}

// The tiers of a channel's overwrites, with a step for each overwrite of a role, and one for those of
// members, if there are any.
fn tiers_of<L: Ledger>(
    guild: Snowflake,
    member: &Member,
    overwrites: &Overwrites,
    steps: &mut Steps<L>,
) -> Tiers
    ensures tiers { AreOf guild member.now overwrites.now result }
    ensures at_least { steps.old ≤ steps.new }
    ensures at_most { steps.new ≤ steps.old + looks_of overwrites.now }
{
    let mut everyone = Tier::NONE;
    let mut held = Tier::NONE;
    for overwrite in overwrites.roles.as_slice() {
        steps.tick();
        everyone.add(overwrite, overwrite.id == guild);
        held.add(overwrite, member.roles.contains(overwrite.id.0));
    }
    if overwrites.members.len() > 0 {
        steps.tick();
    }
    Tiers {
        everyone,
        held,
        own: own_tier(member.user.id, overwrites.members.as_slice()),
    }
}

// The base mask of a member.
#[tactic(auto, unfolding(guild_model::specs::Permissions::part_base))]
fn member_base<L: Ledger>(
    guild: Snowflake,
    owner: Snowflake,
    roles: &[Role],
    member: &Member,
    steps: &mut Steps<L>,
) -> Perms
    requires { IsById role_id roles.now }
    ensures bits { (b : ℕ) → b < 53
        → has_bit result b ≡ part_base guild owner roles.now member.now b }
    ensures looks { steps.new ≡ steps.old + (length member.now.roles + 1) }
{
    let mask = roles_mask(guild, roles, member.roles.as_slice(), steps);
    base_from(mask, owner == member.user.id)
}

// The mask in a channel, from the base mask.
#[tactic(auto, using(perm_bits::proofs::BitSets::bit_sets))]
fn member_mask<L: Ledger>(
    guild: Snowflake,
    member: &Member,
    channel: &Channel,
    base: Perms,
    steps: &mut Steps<L>,
) -> Perms
    ensures bits { (b : ℕ) → b < 53
        → has_bit result b ≡ from_base guild member.now channel.now.overwrites base b }
    ensures at_least { steps.old ≤ steps.new }
    ensures at_most { steps.new ≤ steps.old + looks_of channel.now.overwrites }
{
    if is_administrator(base) {
        return Perms::ALL;
    }
    tiers_of(guild, member, &channel.overwrites, steps).apply(base)
}

/// What a user may do in a guild (Permissions, Permission Overwrites, base permissions). A stranger may
/// do nothing.
#[tactic(auto, using(perm_bits::proofs::BitSets::bit_sets))]
pub fn base_mask<L: Ledger>(guild: &Guild, user: Snowflake, steps: &mut Steps<L>) -> Perms
    ensures bits { (b : ℕ) → b < 53 → has_bit result b ≡ base_has guild.now user b }
    ensures looks { steps.new ≡ steps.old + role_looks guild.now user }
{
    match guild.member(user) {
        Some(member) => member_base(guild.id, guild.owner, guild.roles.as_slice(), member, steps),
        None => Perms::NONE,
    }
}

/// What a user may do in a channel, from its base mask. A stranger may do nothing, and nobody in a
/// channel that does not exist.
#[tactic(auto, using(perm_bits::proofs::BitSets::bit_sets))]
pub fn mask_from<L: Ledger>(
    guild: &Guild,
    user: Snowflake,
    channel: Snowflake,
    base: Perms,
    steps: &mut Steps<L>,
) -> Perms
    requires { (b : ℕ) → b < 53 → has_bit base b ≡ base_has guild.now user b }
    ensures bits { (b : ℕ) → b < 53 → has_bit result b ≡ grants guild.now user channel b }
    ensures at_least { steps.old ≤ steps.new }
    ensures at_most { steps.new ≤ steps.old + overwrite_looks guild.now channel }
{
    match (guild.member(user), guild.channel(channel)) {
        (Some(member), Some(channel)) => member_mask(guild.id, member, channel, base, steps),
        _ => Perms::NONE,
    }
}

// What a member may do in a channel, and nothing in one that does not exist.
#[tactic(auto, using(perm_bits::proofs::BitSets::bit_sets))]
fn mask_of<L: Ledger>(
    guild: &Guild,
    member: &Member,
    channel: Snowflake,
    steps: &mut Steps<L>,
) -> Perms
    ensures bits { (b : ℕ) → b < 53
        → has_bit result b ≡ granted (standing guild.now member.now) channel b }
    ensures at_least { steps.old + (length member.now.roles + 1) ≤ steps.new }
    ensures at_most { steps.new
        ≤ steps.old + (length member.now.roles + 1) + overwrite_looks guild.now channel }
{
    let base = member_base(guild.id, guild.owner, guild.roles.as_slice(), member, steps);
    match guild.channel(channel) {
        Some(channel) => member_mask(guild.id, member, channel, base, steps),
        None => Perms::NONE,
    }
}

/// What a user may do in a channel (Permissions, Permission Overwrites). A stranger may do nothing, and
/// nobody in a channel that does not exist.
#[tactic(auto, using(perm_bits::proofs::BitSets::bit_sets))]
pub fn channel_mask<L: Ledger>(
    guild: &Guild,
    user: Snowflake,
    channel: Snowflake,
    steps: &mut Steps<L>,
) -> Perms
    ensures bits { (b : ℕ) → b < 53 → has_bit result b ≡ grants guild.now user channel b }
    ensures at_least { steps.old + role_looks guild.now user ≤ steps.new }
    ensures at_most { steps.new
        ≤ steps.old + role_looks guild.now user + overwrite_looks guild.now channel }
{
    match guild.member(user) {
        Some(member) => mask_of(guild, member, channel, steps),
        None => Perms::NONE,
    }
}

/// Whether a user sees a channel (Permissions, VIEW_CHANNEL). A stranger sees none, and nobody one that
/// does not exist.
pub fn sees_channel<L: Ledger>(
    guild: &Guild,
    user: Snowflake,
    channel: Snowflake,
    steps: &mut Steps<L>,
) -> bool
    ensures seen { result ≡ sees_channel guild.now user channel }
    ensures at_least { steps.old + role_looks guild.now user ≤ steps.new }
    ensures at_most { steps.new
        ≤ steps.old + role_looks guild.now user + overwrite_looks guild.now channel }
{
    may_view(channel_mask(guild, user, channel, steps))
}

// Whether a member sees a thread.
fn member_sees<L: Ledger>(
    guild: &Guild,
    member: &Member,
    thread: &Thread,
    steps: &mut Steps<L>,
) -> bool
    ensures seen { result ≡ member_sees guild.now member.now thread.now }
    ensures at_least { steps.old ≤ steps.new }
    ensures at_most { steps.new
        ≤ steps.old + (length member.now.roles + 1) + overwrite_looks guild.now thread.now.parent }
{
    let mask = mask_of(guild, member, thread.parent, steps);
    shows_thread(mask, thread.kind, thread.members.contains(member.user.id.0))
}

/// Whether a user sees a thread, archived or not (Threads, Private Threads). A stranger sees none, and
/// nobody one that does not exist.
pub fn sees_thread<L: Ledger>(
    guild: &Guild,
    user: Snowflake,
    thread: Snowflake,
    steps: &mut Steps<L>,
) -> bool
    ensures seen { result ≡ sees_thread guild.now user thread }
    ensures at_least { steps.old ≤ steps.new }
    ensures at_most { steps.new
        ≤ steps.old + role_looks guild.now user + parent_looks guild.now thread }
{
    match (guild.member(user), guild.thread(thread)) {
        (Some(member), Some(thread)) => member_sees(guild, member, thread, steps),
        _ => false,
    }
}
