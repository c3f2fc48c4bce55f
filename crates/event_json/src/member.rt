//! The bodies of GUILD_MEMBER_ADD, GUILD_MEMBER_UPDATE, GUILD_MEMBER_REMOVE and GUILD_MEMBERS_CHUNK.

ghost use Rattle.std.specs.Prelude.{OnOk, IfSome, codes, option_map};
ghost use Rattle.json_view.specs.Nodes.{view};
ghost use Rattle.object_json.specs.Reading.{UnlessMemory};
ghost use Rattle.object_json.specs.Reading.{optional_at, list_from};
ghost use Rattle.object_json.specs.Added.{Adds, AddsTokens, member_tokens_if};
ghost use Rattle.object_json.specs.Kinds.{list};
ghost use Rattle.object_json.specs.Presence.{presence_data, presence_from, PresenceFits};
ghost use Rattle.object_json.specs.Fits.{Each};
ghost use Rattle.event_json.specs.Member.{guild_member_data, guild_member_remove_data, members_chunk_data, guild_member_from, guild_member_remove_from, members_chunk_from, GuildMemberFits, GuildMemberRemoveFits, ChunkFits};

use collections::Seq;
use dispatch_types::{GuildMember, GuildMemberRemove, MemberObject, MembersChunk, PresenceObject};
use json::Writer;
use json_view::{JsonValue, Node};
use object_json::fault::ReadFault;
use object_json::field::{close, id_field, number_field, open, text_field_if};
use object_json::member::write_member;
use object_json::readable::{Readable, list_at, list_from, list_if_at, optional_at, value_at};
use object_json::reading::{id_at, number_at};
use object_json::written::{list_field, list_field_if, value_field};
use std::alloc::{AllocError, Global};

/// Writes the body of Guild Member Add and of Guild Member Update.
pub fn write_guild_member(
    alloc: Global,
    out: &mut Writer,
    member: &GuildMember,
) -> Result<(), AllocError>
    ensures adds { Adds result out.old out.new (guild_member_data member.now) }
    ensures fits { OnOk result (GuildMemberFits member.now) }
{
    write_member(alloc, out, Some(member.guild), &member.member)
}

/// Writes the body of Guild Member Remove.
pub fn write_guild_member_remove(
    alloc: Global,
    out: &mut Writer,
    remove: &GuildMemberRemove,
) -> Result<(), AllocError>
    ensures adds { Adds result out.old out.new (guild_member_remove_data remove.now) }
    ensures fits { OnOk result (GuildMemberRemoveFits remove.now) }
{
    open(out)?;
    id_field(out, "guild_id", remove.guild)?;
    value_field(alloc, out, "user", &remove.user)?;
    close(out)?;
    Ok(())
}

fn presences_field_if(
    alloc: Global,
    out: &mut Writer,
    presences: &Option<Seq<PresenceObject>>,
) -> Result<(), AllocError>
    ensures adds { AddsTokens result out.old out.new (member_tokens_if (codes "presences") (option_map (list presence_data) presences.now)) }
    ensures fits { OnOk result (IfSome presences.now (Each PresenceFits)) }
{
    match presences {
        Some(presences) => {
            list_field(alloc, out, "presences", presences)?;
            Ok(())
        }
        None => Ok(()),
    }
}

/// Writes the body of Guild Members Chunk.
pub fn write_members_chunk(
    alloc: Global,
    out: &mut Writer,
    chunk: &MembersChunk,
) -> Result<(), AllocError>
    ensures adds { Adds result out.old out.new (members_chunk_data chunk.now) }
    ensures fits { OnOk result (ChunkFits chunk.now) }
{
    open(out)?;
    number_field(out, "chunk_count", chunk.count)?;
    number_field(out, "chunk_index", chunk.index)?;
    id_field(out, "guild_id", chunk.guild)?;
    list_field(alloc, out, "members", &chunk.members)?;
    text_field_if(out, "nonce", &chunk.nonce)?;
    list_field_if(alloc, out, "not_found", &chunk.not_found)?;
    presences_field_if(alloc, out, &chunk.presences)?;
    close(out)?;
    Ok(())
}

/// Reads the body of Guild Member Add and of Guild Member Update.
pub fn read_guild_member(alloc: Global, body: &Node<'_>) -> Result<GuildMember, ReadFault>
    ensures { UnlessMemory result (guild_member_from (view body.now)) }
{
    let guild = id_at(body, "guild_id")?;
    let member = MemberObject::read(alloc, body)?;
    Ok(GuildMember { guild, member })
}

/// Reads the body of Guild Member Remove.
pub fn read_guild_member_remove(
    alloc: Global,
    body: &Node<'_>,
) -> Result<GuildMemberRemove, ReadFault>
    ensures { UnlessMemory result (guild_member_remove_from (view body.now)) }
{
    let guild = id_at(body, "guild_id")?;
    let user = value_at(alloc, body, "user")?;
    Ok(GuildMemberRemove { guild, user })
}

fn presences_at(alloc: Global, body: &Node<'_>) -> Result<Option<Seq<PresenceObject>>, ReadFault>
    ensures { UnlessMemory result (optional_at (list_from presence_from) (codes "presences") (view body.now)) }
{
    match body.member("presences") {
        None => Ok(None),
        Some(presences) => Ok(Some(list_from(alloc, presences)?)),
    }
}

/// Reads the body of Guild Members Chunk.
pub fn read_members_chunk(alloc: Global, body: &Node<'_>) -> Result<MembersChunk, ReadFault>
    ensures { UnlessMemory result (members_chunk_from (view body.now)) }
{
    let count = number_at(body, "chunk_count")?;
    let index = number_at(body, "chunk_index")?;
    let guild = id_at(body, "guild_id")?;
    let members = list_at(alloc, body, "members")?;
    let nonce = optional_at(alloc, body, "nonce")?;
    let not_found = list_if_at(alloc, body, "not_found")?;
    let presences = presences_at(alloc, body)?;
    Ok(MembersChunk {
        guild,
        members,
        index,
        count,
        nonce,
        not_found,
        presences,
    })
}
