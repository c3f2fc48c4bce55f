//! A member's permissions in a guild and in a channel, by the parts that decide them.

ghost use Rattle.std.specs.Prelude.{◌≡◌, ◌<◌, ◌||◌, ℕ};
ghost use Rattle.collections.specs.ById.{IsById};
ghost use Rattle.perm_bits.specs.Bits.{has_bit};
ghost use Rattle.perm_bits.specs.Permissions.{administrator};
ghost use Rattle.guild_model.specs.Record.{role_id};
ghost use Rattle.guild_model.specs.Permissions.{role_has, roles_have, part_base, part_grants};
ghost use Rattle.overwrite_eval.specs.FromBase.{from_base};

use crate::tiers::Tiers;
use collections::find;
use guild_model::{Channel, Member, Role};
use perm_bits::Perms;
use snowflake_id::Snowflake;

/// Whether a mask grants everything.
pub(crate) fn is_administrator(mask: Perms) -> bool
    ensures { result ≡ has_bit mask administrator }
{
    mask.has(Perms::ADMINISTRATOR)
}

/// The mask of a role, which is empty where there is no such role.
#[tactic(auto, using(perm_bits::proofs::BitSets::bit_sets))]
pub(crate) fn role_mask(roles: &[Role], id: Snowflake) -> Perms
    requires { IsById role_id roles.now }
    ensures { (b : ℕ) → has_bit result b ≡ role_has roles.now b id }
{
    match find(roles, id.0) {
        Some(role) => role.permissions,
        None => Perms::NONE,
    }
}

// The masks of @everyone, whose id is the guild's, and of the held roles, united.
fn roles_mask(guild: Snowflake, roles: &[Role], held: &[Snowflake]) -> Perms
    requires { IsById role_id roles.now }
    ensures { (b : ℕ) → has_bit result b ≡ roles_have guild roles.now held.now b }
{
    let mut mask = role_mask(roles, guild);
    for id in held {
        mask = mask.union(role_mask(roles, *id));
    }
    mask
}

/// The base mask by the masks of the roles: the owner and an administrator may do everything.
#[tactic(auto, using(perm_bits::proofs::BitSets::bit_sets))]
pub(crate) fn base_from(mask: Perms, is_owner: bool) -> Perms
    ensures { (b : ℕ) → b < 53
        → has_bit result b ≡ ((is_owner || has_bit mask administrator) || has_bit mask b) }
{
    if is_owner || is_administrator(mask) {
        Perms::ALL
    } else {
        mask
    }
}

/// The base mask of a member.
#[tactic(auto, unfolding(guild_model::specs::Permissions::part_base))]
pub(crate) fn part_base(
    guild: Snowflake,
    owner: Snowflake,
    roles: &[Role],
    member: &Member,
) -> Perms
    requires { IsById role_id roles.now }
    ensures { (b : ℕ) → b < 53
        → has_bit result b ≡ part_base guild owner roles.now member.now b }
{
    let mask = roles_mask(guild, roles, member.roles.as_slice());
    base_from(mask, owner == member.user.id)
}

/// The mask in a channel, from the base mask, which has ADMINISTRATOR where the member may do everything.
#[tactic(auto, using(perm_bits::proofs::BitSets::bit_sets))]
pub(crate) fn part_mask_from(
    guild: Snowflake,
    member: &Member,
    channel: &Channel,
    base: Perms,
) -> Perms
    ensures { (b : ℕ) → b < 53
        → has_bit result b ≡ from_base guild member.now channel.now.overwrites base b }
{
    if is_administrator(base) {
        return Perms::ALL;
    }
    Tiers::of(guild, member, &channel.overwrites).apply(base)
}

/// What a member may do in a channel, from these parts of a guild alone, of whose roles it has those
/// that are among `roles` (Permissions, Permission Overwrites).
pub fn part_mask(
    guild: Snowflake,
    owner: Snowflake,
    roles: &[Role],
    member: &Member,
    channel: &Channel,
) -> Perms
    requires { IsById role_id roles.now }
    ensures { (b : ℕ) → b < 53
        → has_bit result b ≡ part_grants guild owner roles.now member.now channel.now.overwrites b }
{
    let base = part_base(guild, owner, roles, member);
    part_mask_from(guild, member, channel, base)
}
