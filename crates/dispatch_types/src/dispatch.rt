//! What a session is told: one variant for each kind of dispatch.

ghost use Rattle.std.specs.Prelude.{◌≡◌};

use crate::channels::ChannelObject;
use crate::guilds::{GuildCreate, GuildDelete, GuildUpdate};
use crate::members::{GuildMember, GuildMemberRemove, MembersChunk};
use crate::messages::{MessageDelete, MessageObject, Reaction, TypingStart};
use crate::presences::{PresenceObject, VoiceStateUpdate};
use crate::ready::Ready;
use crate::roles::{GuildRole, GuildRoleDelete};
use crate::threads::{
    ThreadCreate, ThreadDelete, ThreadListSync, ThreadMembersUpdate, ThreadObject,
};
use intent_set::Kind;
use snowflake_id::Snowflake;

/// What a session is told (Gateway Events, Receive Events).
#[derive(Drop)]
pub enum Dispatch {
    Ready(Ready),
    Resumed,
    GuildCreate(GuildCreate),
    GuildUpdate(GuildUpdate),
    GuildDelete(GuildDelete),
    GuildRoleCreate(GuildRole),
    GuildRoleUpdate(GuildRole),
    GuildRoleDelete(GuildRoleDelete),
    ChannelCreate(ChannelObject),
    ChannelUpdate(ChannelObject),
    ChannelDelete(ChannelObject),
    ThreadCreate(ThreadCreate),
    ThreadUpdate(ThreadObject),
    ThreadDelete(ThreadDelete),
    ThreadListSync(ThreadListSync),
    ThreadMembersUpdate(ThreadMembersUpdate),
    GuildMemberAdd(GuildMember),
    GuildMemberUpdate(GuildMember),
    GuildMemberRemove(GuildMemberRemove),
    GuildMembersChunk(MembersChunk),
    VoiceStateUpdate(VoiceStateUpdate),
    PresenceUpdate(PresenceObject),
    MessageCreate(MessageObject),
    MessageUpdate(MessageObject),
    MessageDelete(MessageDelete),
    MessageReactionAdd(Reaction),
    MessageReactionRemove(Reaction),
    TypingStart(TypingStart),
}

impl Dispatch {
    ghost use Rattle.dispatch_types.specs.Kinds.{kind_of};
    ghost use Rattle.dispatch_types.specs.GuildOf.{guild_of};

    /// The kind of this dispatch.
    pub fn kind(&self) -> Kind
        ensures { result ≡ kind_of self.now }
    {
        match self {
            Dispatch::Ready(_) => Kind::Ready,
            Dispatch::Resumed => Kind::Resumed,
            Dispatch::GuildCreate(_) => Kind::GuildCreate,
            Dispatch::GuildUpdate(_) => Kind::GuildUpdate,
            Dispatch::GuildDelete(_) => Kind::GuildDelete,
            Dispatch::GuildRoleCreate(_) => Kind::GuildRoleCreate,
            Dispatch::GuildRoleUpdate(_) => Kind::GuildRoleUpdate,
            Dispatch::GuildRoleDelete(_) => Kind::GuildRoleDelete,
            Dispatch::ChannelCreate(_) => Kind::ChannelCreate,
            Dispatch::ChannelUpdate(_) => Kind::ChannelUpdate,
            Dispatch::ChannelDelete(_) => Kind::ChannelDelete,
            Dispatch::ThreadCreate(_) => Kind::ThreadCreate,
            Dispatch::ThreadUpdate(_) => Kind::ThreadUpdate,
            Dispatch::ThreadDelete(_) => Kind::ThreadDelete,
            Dispatch::ThreadListSync(_) => Kind::ThreadListSync,
            Dispatch::ThreadMembersUpdate(_) => Kind::ThreadMembersUpdate,
            Dispatch::GuildMemberAdd(_) => Kind::GuildMemberAdd,
            Dispatch::GuildMemberUpdate(_) => Kind::GuildMemberUpdate,
            Dispatch::GuildMemberRemove(_) => Kind::GuildMemberRemove,
            Dispatch::GuildMembersChunk(_) => Kind::GuildMembersChunk,
            Dispatch::VoiceStateUpdate(_) => Kind::VoiceStateUpdate,
            Dispatch::PresenceUpdate(_) => Kind::PresenceUpdate,
            Dispatch::MessageCreate(_) => Kind::MessageCreate,
            Dispatch::MessageUpdate(_) => Kind::MessageUpdate,
            Dispatch::MessageDelete(_) => Kind::MessageDelete,
            Dispatch::MessageReactionAdd(_) => Kind::MessageReactionAdd,
            Dispatch::MessageReactionRemove(_) => Kind::MessageReactionRemove,
            Dispatch::TypingStart(_) => Kind::TypingStart,
        }
    }

    /// The guild that this dispatch is of; `None` exactly for READY and RESUMED.
    pub fn guild(&self) -> Option<Snowflake>
        ensures { result ≡ guild_of self.now }
    {
        match self {
            Dispatch::Ready(_) | Dispatch::Resumed => None,
            Dispatch::GuildCreate(create) => Some(create.id),
            Dispatch::GuildUpdate(update) => Some(update.id),
            Dispatch::GuildDelete(delete) => Some(delete.id),
            Dispatch::GuildRoleCreate(role) => Some(role.guild),
            Dispatch::GuildRoleUpdate(role) => Some(role.guild),
            Dispatch::GuildRoleDelete(delete) => Some(delete.guild),
            Dispatch::ChannelCreate(channel) => Some(channel.guild),
            Dispatch::ChannelUpdate(channel) => Some(channel.guild),
            Dispatch::ChannelDelete(channel) => Some(channel.guild),
            Dispatch::ThreadCreate(create) => Some(create.thread.guild),
            Dispatch::ThreadUpdate(thread) => Some(thread.guild),
            Dispatch::ThreadDelete(delete) => Some(delete.guild),
            Dispatch::ThreadListSync(sync) => Some(sync.guild),
            Dispatch::ThreadMembersUpdate(update) => Some(update.guild),
            Dispatch::GuildMemberAdd(member) => Some(member.guild),
            Dispatch::GuildMemberUpdate(member) => Some(member.guild),
            Dispatch::GuildMemberRemove(remove) => Some(remove.guild),
            Dispatch::GuildMembersChunk(chunk) => Some(chunk.guild),
            Dispatch::VoiceStateUpdate(update) => Some(update.guild),
            Dispatch::PresenceUpdate(presence) => Some(presence.guild),
            Dispatch::MessageCreate(message) => Some(message.guild),
            Dispatch::MessageUpdate(message) => Some(message.guild),
            Dispatch::MessageDelete(delete) => Some(delete.guild),
            Dispatch::MessageReactionAdd(reaction) => Some(reaction.guild),
            Dispatch::MessageReactionRemove(reaction) => Some(reaction.guild),
            Dispatch::TypingStart(typing) => Some(typing.guild),
        }
    }
}
