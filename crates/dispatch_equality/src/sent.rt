//! The objects that dispatches have.

ghost use Rattle.std.specs.Prelude.{◌≡◌, ◌↔◌, IsTrue};

use crate::equality::SameAs;
use dispatch_types::{ChannelObject, JoinedThread, MemberObject, MessageObject, ThreadObject};

impl SameAs for MemberObject {
    fn same_as(&self, other: &MemberObject) -> bool {
        self.user.same_as(&other.user)
            && self.nick.same_as(&other.nick)
            && self.roles.same_as(&other.roles)
            && self.joined == other.joined
            && self.timeout == other.timeout
    }
}

impl SameAs for ChannelObject {
    fn same_as(&self, other: &ChannelObject) -> bool {
        self.guild == other.guild
            && self.id == other.id
            && self.kind == other.kind
            && self.name.same_as(&other.name)
            && self.parent == other.parent
            && self.position == other.position
            && self.overwrites.same_as(&other.overwrites)
    }
}

impl SameAs for ThreadObject {
    fn same_as(&self, other: &ThreadObject) -> bool {
        self.guild == other.guild
            && self.id == other.id
            && self.kind == other.kind
            && self.name.same_as(&other.name)
            && self.owner == other.owner
            && self.parent == other.parent
            && self.archived == other.archived
            && self.count == other.count
    }
}

impl SameAs for JoinedThread {
    fn same_as(&self, other: &JoinedThread) -> bool {
        self.thread.same_as(&other.thread) && self.joined == other.joined
    }
}

impl SameAs for MessageObject {
    fn same_as(&self, other: &MessageObject) -> bool {
        self.guild == other.guild
            && self.channel == other.channel
            && self.id == other.id
            && self.author.same_as(&other.author)
            && self.content.same_as(&other.content)
            && self.mentions.same_as(&other.mentions)
            && self.embeds == other.embeds
            && self.attachments == other.attachments
            && self.components == other.components
    }
}
