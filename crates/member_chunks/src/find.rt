//! The members that are asked for, and the user ids that are no members'.

ghost use Rattle.std.specs.Prelude.{◌≡◌, IfOk, map, filter, filter_map, take, not, unwrap_or};
ghost use Rattle.collections.specs.ById.{find_id, has_id};
ghost use Rattle.guild_model.specs.Record.{member_id};
ghost use Rattle.member_chunks.specs.Answered.{most, at_most, is_named, each_once, found, not_found};

use collections::{ById, Seq, Text};
use gateway_frames::Find;
use guild_model::{Guild, Member};
use snowflake_id::Snowflake;
use std::alloc::{AllocError, Global};

// The most members that a query finds; `None` if it finds all.
fn most(query: &Text, limit: u64) -> Option<usize>
    ensures { result ≡ most query.now limit }
{
    if limit != 0 {
        return Some(limit.min(100) as usize);
    }
    if query.len() == 0 { None } else { Some(100) }
}

fn is_named(member: &Member, query: &Text) -> bool
    ensures { result ≡ is_named query.now member.now }
{
    let name = member.user.name.as_str().as_bytes();
    name.starts_with(query.as_str().as_bytes())
}

fn named<'a>(
    alloc: Global,
    members: &'a [Member],
    query: &Text,
) -> Result<Vec<&'a Member>, AllocError>
    ensures { IfOk result (λ list. map (λ member. member.now) list.items
        ≡ filter (is_named query.now) members.now) }
{
    members
        .iter()
        .filter(|member| is_named(member, query))
        .collect(alloc)
}

// The first members with such a name, at most so many. It looks at no member behind the last of them.
fn first_named<'a>(
    alloc: Global,
    members: &'a [Member],
    query: &Text,
    most: usize,
) -> Result<Vec<&'a Member>, AllocError>
    ensures { IfOk result (λ list. map (λ member. member.now) list.items
        ≡ take most (filter (is_named query.now) members.now)) }
{
    members
        .iter()
        .filter(|member| is_named(member, query))
        .take(most)
        .collect(alloc)
}

// The members that a query finds.
fn queried<'a>(
    alloc: Global,
    guild: &'a Guild,
    query: &Text,
    limit: u64,
) -> Result<Vec<&'a Member>, AllocError>
    ensures { IfOk result (λ list. map (λ member. member.now) list.items
        ≡ at_most (most query.now limit) (filter (is_named query.now) guild.now.members)) }
{
    let members = guild.members.as_slice();
    match most(query, limit) {
        Some(most) => first_named(alloc, members, query, most),
        None => named(alloc, members, query),
    }
}

fn each_once(alloc: Global, ids: &Seq<Snowflake>) -> Result<ById<Snowflake>, AllocError>
    ensures { IfOk result (λ once. once ≡ each_once ids.now) }
{
    ById::of(alloc, Vec::from_slice(alloc, ids.as_slice())?)
}

// Those of the users that are members.
fn members_among<'a>(
    alloc: Global,
    guild: &'a Guild,
    ids: &[Snowflake],
) -> Result<Vec<&'a Member>, AllocError>
    ensures { IfOk result (λ list. map (λ member. member.now) list.items
        ≡ filter_map (λ id. find_id member_id id guild.now.members) ids.now) }
{
    let mut list = Vec::new(alloc);
    for id in ids {
        if let Some(member) = guild.member(*id) {
            list.push(member)?;
        }
    }
    Ok(list)
}

// Those of the users that are no members.
fn others_among(
    alloc: Global,
    guild: &Guild,
    ids: &[Snowflake],
) -> Result<Vec<Snowflake>, AllocError>
    ensures { IfOk result (λ list. list.items
        ≡ filter (λ id. not (has_id member_id id guild.now.members)) ids.now) }
{
    let mut list = Vec::new(alloc);
    for id in ids {
        if !guild.members.contains(id.0) {
            list.push(*id)?;
        }
    }
    Ok(list)
}

/// The members that are asked for, in order of id.
pub(crate) fn found<'a>(
    alloc: Global,
    guild: &'a Guild,
    find: &Find,
) -> Result<Vec<&'a Member>, AllocError>
    ensures { IfOk result (λ list. map (λ member. member.now) list.items
        ≡ found guild.now find.now) }
{
    match find {
        Find::Query { query, limit } => queried(alloc, guild, query, limit.unwrap_or(0)),
        Find::Users(ids) => {
            let once = each_once(alloc, ids)?;
            members_among(alloc, guild, once.as_slice())
        }
    }
}

/// The user ids that are asked for and are no members', each once and ascending.
pub(crate) fn not_found(
    alloc: Global,
    guild: &Guild,
    find: &Find,
) -> Result<Vec<Snowflake>, AllocError>
    ensures { IfOk result (λ list. list.items ≡ not_found guild.now find.now) }
{
    match find {
        Find::Query { .. } => Ok(Vec::new(alloc)),
        Find::Users(ids) => {
            let once = each_once(alloc, ids)?;
            others_among(alloc, guild, once.as_slice())
        }
    }
}
