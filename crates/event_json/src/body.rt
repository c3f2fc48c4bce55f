//! The field `d` of a dispatch, both ways.

ghost use Rattle.std.specs.Prelude.{OnOk};
ghost use Rattle.serde_json.specs.Data.{object, no_members};
ghost use Rattle.object_json.specs.Added.{Adds};
ghost use Rattle.event_json.specs.Body.{body_data, body_from, DispatchFits};
ghost use Rattle.json_view.specs.Nodes.{view};
ghost use Rattle.object_json.specs.Reading.{UnlessMemory};

use crate::guild::{
    read_guild_create, read_guild_delete, read_guild_role, read_guild_role_delete,
    read_guild_update, write_guild_create, write_guild_delete, write_guild_role,
    write_guild_role_delete, write_guild_update,
};
use crate::member::{
    read_guild_member, read_guild_member_remove, read_members_chunk, write_guild_member,
    write_guild_member_remove, write_members_chunk,
};
use crate::message::{
    read_message_delete, read_reaction, read_typing_start, write_message_delete, write_reaction,
    write_typing_start,
};
use crate::ready::{read_ready, write_ready};
use crate::thread::{
    read_thread_create, read_thread_delete, read_thread_list_sync, read_thread_members_update,
    write_thread_create, write_thread_delete, write_thread_list_sync, write_thread_members_update,
};
use crate::voice::{read_voice_state_update, write_voice_state_update};
use dispatch_types::{ChannelObject, Dispatch, MessageObject, PresenceObject, ThreadObject};
use intent_set::Kind;
use json::Writer;
use json_view::Node;
use object_json::fault::ReadFault;
use object_json::field::{close, open};
use object_json::readable::Readable;
use object_json::written::Written;
use std::alloc::{AllocError, Global};

fn empty(out: &mut Writer) -> Result<(), AllocError>
    ensures { Adds result out.old out.new (object no_members) }
{
    open(out)?;
    close(out)?;
    Ok(())
}

/// Writes the field `d` of a dispatch, with the keys in byte order.
pub fn write_body(alloc: Global, out: &mut Writer, of: &Dispatch) -> Result<(), AllocError>
    ensures adds { Adds result out.old out.new (body_data of.now) }
    ensures fits { OnOk result (DispatchFits of.now) }
{
    match of {
        Dispatch::Ready(ready) => write_ready(alloc, out, ready),
        Dispatch::Resumed => empty(out),
        Dispatch::GuildCreate(create) => write_guild_create(alloc, out, create),
        Dispatch::GuildUpdate(update) => write_guild_update(out, update),
        Dispatch::GuildDelete(delete) => write_guild_delete(out, delete),
        Dispatch::GuildRoleCreate(role) => write_guild_role(alloc, out, role),
        Dispatch::GuildRoleUpdate(role) => write_guild_role(alloc, out, role),
        Dispatch::GuildRoleDelete(delete) => write_guild_role_delete(out, delete),
        Dispatch::ChannelCreate(channel) => channel.write(alloc, out),
        Dispatch::ChannelUpdate(channel) => channel.write(alloc, out),
        Dispatch::ChannelDelete(channel) => channel.write(alloc, out),
        Dispatch::ThreadCreate(create) => write_thread_create(alloc, out, create),
        Dispatch::ThreadUpdate(thread) => thread.write(alloc, out),
        Dispatch::ThreadDelete(delete) => write_thread_delete(out, delete),
        Dispatch::ThreadListSync(sync) => write_thread_list_sync(alloc, out, sync),
        Dispatch::ThreadMembersUpdate(update) => write_thread_members_update(alloc, out, update),
        Dispatch::GuildMemberAdd(member) => write_guild_member(alloc, out, member),
        Dispatch::GuildMemberUpdate(member) => write_guild_member(alloc, out, member),
        Dispatch::GuildMemberRemove(remove) => write_guild_member_remove(alloc, out, remove),
        Dispatch::GuildMembersChunk(chunk) => write_members_chunk(alloc, out, chunk),
        Dispatch::VoiceStateUpdate(update) => write_voice_state_update(out, update),
        Dispatch::PresenceUpdate(presence) => presence.write(alloc, out),
        Dispatch::MessageCreate(message) => message.write(alloc, out),
        Dispatch::MessageUpdate(message) => message.write(alloc, out),
        Dispatch::MessageDelete(delete) => write_message_delete(out, delete),
        Dispatch::MessageReactionAdd(reaction) => write_reaction(out, reaction),
        Dispatch::MessageReactionRemove(reaction) => write_reaction(out, reaction),
        Dispatch::TypingStart(typing) => write_typing_start(out, typing),
    }
}

/// The one dispatch of a kind whose field `d` this can be.
pub fn read_body(alloc: Global, kind: Kind, body: &Node<'_>) -> Result<Dispatch, ReadFault>
    ensures { UnlessMemory result (body_from kind (view body.now)) }
{
    match kind {
        Kind::Ready => Ok(Dispatch::Ready(read_ready(alloc, body)?)),
        Kind::Resumed => Ok(Dispatch::Resumed),
        Kind::GuildCreate => Ok(Dispatch::GuildCreate(read_guild_create(alloc, body)?)),
        Kind::GuildUpdate => Ok(Dispatch::GuildUpdate(read_guild_update(alloc, body)?)),
        Kind::GuildDelete => Ok(Dispatch::GuildDelete(read_guild_delete(body)?)),
        Kind::GuildRoleCreate => Ok(Dispatch::GuildRoleCreate(read_guild_role(alloc, body)?)),
        Kind::GuildRoleUpdate => Ok(Dispatch::GuildRoleUpdate(read_guild_role(alloc, body)?)),
        Kind::GuildRoleDelete => Ok(Dispatch::GuildRoleDelete(read_guild_role_delete(body)?)),
        Kind::ChannelCreate => Ok(Dispatch::ChannelCreate(ChannelObject::read(alloc, body)?)),
        Kind::ChannelUpdate => Ok(Dispatch::ChannelUpdate(ChannelObject::read(alloc, body)?)),
        Kind::ChannelDelete => Ok(Dispatch::ChannelDelete(ChannelObject::read(alloc, body)?)),
        Kind::ThreadCreate => Ok(Dispatch::ThreadCreate(read_thread_create(alloc, body)?)),
        Kind::ThreadUpdate => Ok(Dispatch::ThreadUpdate(ThreadObject::read(alloc, body)?)),
        Kind::ThreadDelete => Ok(Dispatch::ThreadDelete(read_thread_delete(body)?)),
        Kind::ThreadListSync => Ok(Dispatch::ThreadListSync(read_thread_list_sync(alloc, body)?)),
        Kind::ThreadMembersUpdate => Ok(Dispatch::ThreadMembersUpdate(read_thread_members_update(
            alloc, body,
        )?)),
        Kind::GuildMemberAdd => Ok(Dispatch::GuildMemberAdd(read_guild_member(alloc, body)?)),
        Kind::GuildMemberUpdate => Ok(Dispatch::GuildMemberUpdate(read_guild_member(alloc, body)?)),
        Kind::GuildMemberRemove => Ok(Dispatch::GuildMemberRemove(read_guild_member_remove(
            alloc, body,
        )?)),
        Kind::GuildMembersChunk => Ok(Dispatch::GuildMembersChunk(read_members_chunk(
            alloc, body,
        )?)),
        Kind::VoiceStateUpdate => Ok(Dispatch::VoiceStateUpdate(read_voice_state_update(
            alloc, body,
        )?)),
        Kind::PresenceUpdate => Ok(Dispatch::PresenceUpdate(PresenceObject::read(alloc, body)?)),
        Kind::MessageCreate => Ok(Dispatch::MessageCreate(MessageObject::read(alloc, body)?)),
        Kind::MessageUpdate => Ok(Dispatch::MessageUpdate(MessageObject::read(alloc, body)?)),
        Kind::MessageDelete => Ok(Dispatch::MessageDelete(read_message_delete(body)?)),
        Kind::MessageReactionAdd => Ok(Dispatch::MessageReactionAdd(read_reaction(alloc, body)?)),
        Kind::MessageReactionRemove => Ok(Dispatch::MessageReactionRemove(read_reaction(
            alloc, body,
        )?)),
        Kind::TypingStart => Ok(Dispatch::TypingStart(read_typing_start(body)?)),
    }
}
