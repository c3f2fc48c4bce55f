//! The members that a viewer may hold, and their number.

ghost use Rattle.std.specs.Prelude.{◌≡◌, filter, length, IfOk};
ghost use Rattle.intent_set.specs.Intents.{guild_members};
ghost use Rattle.dispatch_types.specs.Projection.{told, listed, is_known};

use collections::{ById, Duplicate};
use guild_model::{Guild, Member};
use intent_set::Intents;
use snowflake_id::Snowflake;
use std::alloc::{AllocError, Global};

// Copies of those of the members that are among the users.
fn listed_members(
    alloc: Global,
    members: &[Member],
    users: &ById<Snowflake>,
) -> Result<Vec<Member>, AllocError>
    ensures { IfOk result (λ copies. copies.items ≡ filter (is_known users.now) members.now) }
{
    let mut copies = Vec::new(alloc);
    for member in members {
        if users.contains(member.user.id.0) {
            copies.push(member.duplicate(alloc)?)?;
        }
    }
    Ok(copies)
}

// Copies of the members that are known. The known users are put in order first.
fn known_members(
    alloc: Global,
    members: &ById<Member>,
    known: &[Snowflake],
) -> Result<ById<Member>, AllocError>
    ensures { IfOk result (λ copies. copies ≡ filter (is_known known.now) members.now) }
{
    let users = ById::of(alloc, Vec::from_slice(alloc, known)?)?;
    let members = members.as_slice();
    let copies = listed_members(alloc, members, &users)?;
    Ok(ById::from_ascending(copies))
}

// The known members, if GUILD_MEMBERS tells of them.
pub(crate) fn members(
    alloc: Global,
    guild: &Guild,
    intents: Intents,
    known: &[Snowflake],
) -> Result<ById<Member>, AllocError>
    ensures { IfOk result (λ members. members
        ≡ listed intents guild_members (filter (is_known known.now) guild.now.members)) }
{
    if intents.has(Intents::GUILD_MEMBERS) {
        known_members(alloc, &guild.members, known)
    } else {
        Ok(ById::new(alloc))
    }
}

// How many members there are, if GUILD_MEMBERS tells.
pub(crate) fn member_count(guild: &Guild, intents: Intents) -> Option<u64>
    ensures { result ≡ told intents guild_members (length guild.now.members) }
{
    if intents.has(Intents::GUILD_MEMBERS) {
        Some(guild.members.len() as u64)
    } else {
        None
    }
}
