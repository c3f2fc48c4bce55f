//! The parts of a guild's record that a view has.

ghost use Rattle.std.specs.Prelude.{◌≡◌, ◌↔◌, IsTrue};

use crate::equality::SameAs;
use guild_model::{Channel, Member, Overwrites, Role, User};

impl SameAs for User {
    fn same_as(&self, other: &User) -> bool {
        self.id == other.id && self.name.same_as(&other.name) && self.bot == other.bot
    }
}

impl SameAs for Role {
    fn same_as(&self, other: &Role) -> bool {
        self.id == other.id
            && self.name.same_as(&other.name)
            && self.permissions == other.permissions
            && self.position == other.position
    }
}

impl SameAs for Overwrites {
    fn same_as(&self, other: &Overwrites) -> bool {
        self.roles.same_as(&other.roles) && self.members.same_as(&other.members)
    }
}

impl SameAs for Channel {
    fn same_as(&self, other: &Channel) -> bool {
        self.id == other.id
            && self.kind == other.kind
            && self.name.same_as(&other.name)
            && self.parent == other.parent
            && self.position == other.position
            && self.overwrites.same_as(&other.overwrites)
    }
}

impl SameAs for Member {
    fn same_as(&self, other: &Member) -> bool {
        self.user.same_as(&other.user)
            && self.nick.same_as(&other.nick)
            && self.roles.same_as(&other.roles)
            && self.joined == other.joined
            && self.timeout == other.timeout
    }
}
