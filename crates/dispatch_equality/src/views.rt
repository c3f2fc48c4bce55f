//! What a client holds of a guild.

ghost use Rattle.std.specs.Prelude.{◌≡◌, ◌↔◌, IsTrue};
ghost use Rattle.std.specs.Option.{option_copied};

use crate::equality::SameAs;
use dispatch_types::{GuildView, OpenView, ThreadView};

impl SameAs for ThreadView {
    fn same_as(&self, other: &ThreadView) -> bool {
        self.id == other.id
            && self.kind == other.kind
            && self.name.same_as(&other.name)
            && self.owner == other.owner
            && self.parent == other.parent
            && self.mine == other.mine
            && self.count == other.count
    }
}

impl SameAs for OpenView {
    fn same_as(&self, other: &OpenView) -> bool {
        self.name.same_as(&other.name)
            && self.owner == other.owner
            && self.roles.same_as(&other.roles)
            && self.channels.same_as(&other.channels)
            && self.me.same_as(&other.me)
            && self.members.same_as(&other.members)
            && self.member_count == other.member_count
            && self.threads.same_as(&other.threads)
            && self.voices.same_as(&other.voices)
            && self.presences.same_as(&other.presences)
    }
}

impl SameAs for GuildView {
    fn same_as(&self, other: &GuildView) -> bool {
        match (self, other) {
            (GuildView::Unavailable, GuildView::Unavailable) => true,
            (GuildView::Open(one), GuildView::Open(other)) => one.same_as(other),
            _ => false,
        }
    }
}

/// Whether two views of a guild are equal (Gateway Events, Guild Create): both unavailable, or both
/// open with equal parts. Does not allocate.
pub fn same(one: &GuildView, other: &GuildView) -> bool
    ensures { IsTrue result ↔ (one.now ≡ other.now) }
{
    one.same_as(other)
}

/// Whether two clients that may hold no view of a guild hold the same of it. Does not allocate.
pub fn same_or_none(one: Option<&GuildView>, other: Option<&GuildView>) -> bool
    ensures { IsTrue result ↔ (option_copied one.entry ≡ option_copied other.entry) }
{
    match (one, other) {
        (Some(one), Some(other)) => same(one, other),
        (None, None) => true,
        _ => false,
    }
}
