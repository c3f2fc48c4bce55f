//! The fields of each dispatch that has more than one.

ghost use Rattle.std.specs.Prelude.{◌≡◌, ◌↔◌, IsTrue};

use crate::equality::SameAs;
use dispatch_types::{
    GuildCreate, GuildMember, GuildMemberRemove, GuildRole, GuildUpdate, MembersChunk, Reaction,
    Ready, ThreadCreate, ThreadListSync, ThreadMembersUpdate,
};

impl SameAs for Ready {
    fn same_as(&self, other: &Ready) -> bool {
        self.user.same_as(&other.user)
            && self.guilds.same_as(&other.guilds)
            && self.session.same_as(&other.session)
            && self.url.same_as(&other.url)
            && self.shard == other.shard
    }
}

impl SameAs for GuildCreate {
    fn same_as(&self, other: &GuildCreate) -> bool {
        self.id == other.id
            && self.name.same_as(&other.name)
            && self.owner == other.owner
            && self.roles.same_as(&other.roles)
            && self.channels.same_as(&other.channels)
            && self.members.same_as(&other.members)
            && self.member_count == other.member_count
            && self.large == other.large
            && self.threads.same_as(&other.threads)
            && self.voices.same_as(&other.voices)
            && self.presences.same_as(&other.presences)
    }
}

impl SameAs for GuildUpdate {
    fn same_as(&self, other: &GuildUpdate) -> bool {
        self.id == other.id && self.name.same_as(&other.name) && self.owner == other.owner
    }
}

impl SameAs for GuildRole {
    fn same_as(&self, other: &GuildRole) -> bool {
        self.guild == other.guild && self.role.same_as(&other.role)
    }
}

impl SameAs for ThreadCreate {
    fn same_as(&self, other: &ThreadCreate) -> bool {
        self.thread.same_as(&other.thread)
            && self.newly_created == other.newly_created
            && self.member == other.member
    }
}

impl SameAs for ThreadListSync {
    fn same_as(&self, other: &ThreadListSync) -> bool {
        self.guild == other.guild
            && self.channels.same_as(&other.channels)
            && self.threads.same_as(&other.threads)
            && self.members.same_as(&other.members)
    }
}

impl SameAs for ThreadMembersUpdate {
    fn same_as(&self, other: &ThreadMembersUpdate) -> bool {
        self.guild == other.guild
            && self.id == other.id
            && self.count == other.count
            && self.added.same_as(&other.added)
            && self.removed.same_as(&other.removed)
    }
}

impl SameAs for GuildMember {
    fn same_as(&self, other: &GuildMember) -> bool {
        self.guild == other.guild && self.member.same_as(&other.member)
    }
}

impl SameAs for GuildMemberRemove {
    fn same_as(&self, other: &GuildMemberRemove) -> bool {
        self.guild == other.guild && self.user.same_as(&other.user)
    }
}

impl SameAs for MembersChunk {
    fn same_as(&self, other: &MembersChunk) -> bool {
        self.guild == other.guild
            && self.members.same_as(&other.members)
            && self.index == other.index
            && self.count == other.count
            && self.nonce.same_as(&other.nonce)
            && self.not_found.same_as(&other.not_found)
            && self.presences.same_as(&other.presences)
    }
}

impl SameAs for Reaction {
    fn same_as(&self, other: &Reaction) -> bool {
        self.guild == other.guild
            && self.channel == other.channel
            && self.message == other.message
            && self.user == other.user
            && self.emoji.same_as(&other.emoji)
    }
}
