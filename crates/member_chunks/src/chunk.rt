//! The chunks of an answer (Gateway Events, Guild Members Chunk).

ghost use Rattle.std.specs.Prelude.{◌≡◌, IfOk, map, filter_map};
ghost use Rattle.std.specs.Option.{option_copied};
ghost use Rattle.dispatch_types.specs.declared.dispatch.Dispatch.TheVariants.{GuildMembersChunk};
ghost use Rattle.dispatch_types.specs.Objects.{member_object};
ghost use Rattle.member_chunks.specs.Answered.{chunk_count, part, given_back, presence_told, presences_told, chunk, chunks};

use crate::find::not_found;
use crate::rights::wants_presences;
use collections::{Seq, Text};
use dispatch_types::{Dispatch, MemberObject, MembersChunk, PresenceObject};
use gateway_frames::Ask;
use guild_model::{Guild, Member};
use std::alloc::{AllocError, Global};

/// The most members of a chunk.
const CHUNK_SIZE: usize = 1000;

/// The most bytes of a nonce.
const NONCE_SIZE: usize = 32;

// How many chunks these members make.
fn chunk_count(members: &[&Member]) -> usize
    ensures { result ≡ chunk_count (map (λ member. member.now) members.now) }
{
    members.len().div_ceil(CHUNK_SIZE).max(1)
}

// The members of the chunk with this number.
fn part<'a, 'b>(members: &'a [&'b Member], index: usize) -> &'a [&'b Member]
    ensures { map (λ member. member.now) result.now
        ≡ part (map (λ member. member.now) members.now) index }
{
    let start = index.saturating_mul(CHUNK_SIZE).min(members.len());
    let end = (start + CHUNK_SIZE).min(members.len());
    &members[start..end]
}

// The nonce that the chunks repeat. One that is too long is ignored.
fn given_back(alloc: Global, nonce: Option<&Text>) -> Result<Option<Text>, AllocError>
    ensures { IfOk result (λ repeated. repeated ≡ given_back (option_copied nonce.entry)) }
{
    match nonce {
        Some(nonce) if nonce.len() <= NONCE_SIZE => Ok(Some(nonce.copy(alloc)?)),
        _ => Ok(None),
    }
}

fn member_objects(alloc: Global, members: &[&Member]) -> Result<Seq<MemberObject>, AllocError>
    ensures { IfOk result (λ objects. objects
        ≡ map member_object (map (λ member. member.now) members.now)) }
{
    let mut objects = Seq::new(alloc);
    for member in members {
        objects.push(MemberObject::of(alloc, member)?)?;
    }
    Ok(objects)
}

fn presence_told(guild: &Guild, member: &Member) -> Option<PresenceObject>
    ensures { result ≡ presence_told guild.now member.now }
{
    match guild.presences.get(member.user.id.0) {
        Some(presence) => Some(PresenceObject::of(guild.id, presence)),
        None => None,
    }
}

fn presence_objects(
    alloc: Global,
    guild: &Guild,
    members: &[&Member],
) -> Result<Seq<PresenceObject>, AllocError>
    ensures { IfOk result (λ objects. objects
        ≡ filter_map (presence_told guild.now) (map (λ member. member.now) members.now)) }
{
    let mut objects = Seq::new(alloc);
    for member in members {
        if let Some(presence) = presence_told(guild, member) {
            objects.push(presence)?;
        }
    }
    Ok(objects)
}

fn presences_told(
    alloc: Global,
    guild: &Guild,
    ask: &Ask,
    members: &[&Member],
) -> Result<Option<Seq<PresenceObject>>, AllocError>
    ensures { IfOk result (λ objects. objects
        ≡ presences_told guild.now ask.now (map (λ member. member.now) members.now)) }
{
    if !wants_presences(ask) {
        return Ok(None);
    }
    Ok(Some(presence_objects(alloc, guild, members)?))
}

// The chunk with this number of an answer with these members.
fn chunk(
    alloc: Global,
    guild: &Guild,
    ask: &Ask,
    members: &[&Member],
    index: usize,
) -> Result<MembersChunk, AllocError>
    ensures { IfOk result (λ told. told
        ≡ chunk guild.now ask.now (map (λ member. member.now) members.now) index) }
{
    let part = part(members, index);
    Ok(MembersChunk {
        guild: guild.id,
        members: member_objects(alloc, part)?,
        index: index as u64,
        count: chunk_count(members) as u64,
        nonce: given_back(alloc, ask.nonce.as_ref())?,
        not_found: Seq::from_vec(not_found(alloc, guild, &ask.find)?),
        presences: presences_told(alloc, guild, ask, part)?,
    })
}

/// These members in chunks.
pub(crate) fn chunks(
    alloc: Global,
    guild: &Guild,
    ask: &Ask,
    members: &[&Member],
) -> Result<Vec<Dispatch>, AllocError>
    ensures { IfOk result (λ list. list.items
        ≡ chunks guild.now ask.now (map (λ member. member.now) members.now)) }
{
    let mut list = Vec::new(alloc);
    for index in 0..chunk_count(members) {
        let chunk = chunk(alloc, guild, ask, members, index)?;
        list.push(Dispatch::GuildMembersChunk(chunk))?;
    }
    Ok(list)
}
