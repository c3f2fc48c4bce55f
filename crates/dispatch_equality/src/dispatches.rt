//! Dispatches: equal exactly if their kinds and their fields are.

ghost use Rattle.std.specs.Prelude.{◌≡◌, ◌↔◌, IsTrue};

use crate::equality::SameAs;
use crate::lists::same_items;
use dispatch_types::Dispatch;

impl SameAs for Dispatch {
    fn same_as(&self, other: &Dispatch) -> bool {
        match (self, other) {
            (Self::Ready(one), Self::Ready(other)) => one.same_as(other),
            (Self::Resumed, Self::Resumed) => true,
            (Self::GuildCreate(one), Self::GuildCreate(other)) => one.same_as(other),
            (Self::GuildUpdate(one), Self::GuildUpdate(other)) => one.same_as(other),
            (Self::GuildDelete(one), Self::GuildDelete(other)) => one.same_as(other),
            (Self::GuildRoleCreate(one), Self::GuildRoleCreate(other)) => one.same_as(other),
            (Self::GuildRoleUpdate(one), Self::GuildRoleUpdate(other)) => one.same_as(other),
            (Self::GuildRoleDelete(one), Self::GuildRoleDelete(other)) => one.same_as(other),
            (Self::ChannelCreate(one), Self::ChannelCreate(other)) => one.same_as(other),
            (Self::ChannelUpdate(one), Self::ChannelUpdate(other)) => one.same_as(other),
            (Self::ChannelDelete(one), Self::ChannelDelete(other)) => one.same_as(other),
            (Self::ThreadCreate(one), Self::ThreadCreate(other)) => one.same_as(other),
            (Self::ThreadUpdate(one), Self::ThreadUpdate(other)) => one.same_as(other),
            (Self::ThreadDelete(one), Self::ThreadDelete(other)) => one.same_as(other),
            (Self::ThreadListSync(one), Self::ThreadListSync(other)) => one.same_as(other),
            (Self::ThreadMembersUpdate(one), Self::ThreadMembersUpdate(other)) => one.same_as(
                other,
            ),
            (Self::GuildMemberAdd(one), Self::GuildMemberAdd(other)) => one.same_as(other),
            (Self::GuildMemberUpdate(one), Self::GuildMemberUpdate(other)) => one.same_as(other),
            (Self::GuildMemberRemove(one), Self::GuildMemberRemove(other)) => one.same_as(other),
            (Self::GuildMembersChunk(one), Self::GuildMembersChunk(other)) => one.same_as(other),
            (Self::VoiceStateUpdate(one), Self::VoiceStateUpdate(other)) => one.same_as(other),
            (Self::PresenceUpdate(one), Self::PresenceUpdate(other)) => one.same_as(other),
            (Self::MessageCreate(one), Self::MessageCreate(other)) => one.same_as(other),
            (Self::MessageUpdate(one), Self::MessageUpdate(other)) => one.same_as(other),
            (Self::MessageDelete(one), Self::MessageDelete(other)) => one.same_as(other),
            (Self::MessageReactionAdd(one), Self::MessageReactionAdd(other)) => one.same_as(other),
            (Self::MessageReactionRemove(one), Self::MessageReactionRemove(other)) => one.same_as(
                other,
            ),
            (Self::TypingStart(one), Self::TypingStart(other)) => one.same_as(other),
            _ => false,
        }
    }
}

/// Whether two lists have equal dispatches in the same order. Does not allocate.
pub fn same_list(one: &[Dispatch], other: &[Dispatch]) -> bool
    ensures { IsTrue result ↔ (one.now ≡ other.now) }
{
    same_items(one, other)
}
