//! Parts that are copied: they are compared by `==`.

ghost use Rattle.std.specs.Prelude.{◌≡◌, ◌↔◌, IsTrue};

use crate::equality::SameAs;
use dispatch_types::{
    GuildDelete, GuildRoleDelete, MessageDelete, OverwriteObject, PresenceObject, ThreadDelete,
    ThreadMemberObject, TypingStart, VoiceObject, VoiceStateUpdate,
};
use guild_model::{Overwrite, Presence, ThreadMember, Voice};
use snowflake_id::Snowflake;

impl SameAs for Snowflake {
    fn same_as(&self, other: &Snowflake) -> bool {
        self == other
    }
}

impl SameAs for Overwrite {
    fn same_as(&self, other: &Overwrite) -> bool {
        self == other
    }
}

impl SameAs for ThreadMember {
    fn same_as(&self, other: &ThreadMember) -> bool {
        self == other
    }
}

impl SameAs for Voice {
    fn same_as(&self, other: &Voice) -> bool {
        self == other
    }
}

impl SameAs for Presence {
    fn same_as(&self, other: &Presence) -> bool {
        self == other
    }
}

impl SameAs for OverwriteObject {
    fn same_as(&self, other: &OverwriteObject) -> bool {
        self == other
    }
}

impl SameAs for ThreadMemberObject {
    fn same_as(&self, other: &ThreadMemberObject) -> bool {
        self == other
    }
}

impl SameAs for VoiceObject {
    fn same_as(&self, other: &VoiceObject) -> bool {
        self == other
    }
}

impl SameAs for PresenceObject {
    fn same_as(&self, other: &PresenceObject) -> bool {
        self == other
    }
}

impl SameAs for GuildDelete {
    fn same_as(&self, other: &GuildDelete) -> bool {
        self == other
    }
}

impl SameAs for GuildRoleDelete {
    fn same_as(&self, other: &GuildRoleDelete) -> bool {
        self == other
    }
}

impl SameAs for ThreadDelete {
    fn same_as(&self, other: &ThreadDelete) -> bool {
        self == other
    }
}

impl SameAs for VoiceStateUpdate {
    fn same_as(&self, other: &VoiceStateUpdate) -> bool {
        self == other
    }
}

impl SameAs for MessageDelete {
    fn same_as(&self, other: &MessageDelete) -> bool {
        self == other
    }
}

impl SameAs for TypingStart {
    fn same_as(&self, other: &TypingStart) -> bool {
        self == other
    }
}
