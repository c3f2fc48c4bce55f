//! Sets of kinds of dispatches.

ghost use Rattle.std.specs.Prelude.{◌≡◌, ◌⊎◌, ◌↔◌, ◌^◌, true, IsTrue};
ghost use Rattle.intent_set.specs.declared.kind.Kind.{Kind as AKind};
ghost use Rattle.client_hooks.specs.Kinds.{place, holds};

use intent_set::Kind;
use std::marker::Model;

/// A set of kinds of dispatches, which a clause sees as a number (Gateway Events, Receive Events).
#[derive(Clone, Copy, Debug)]
pub struct KindSet(u32);

impl Model for KindSet {
    ghost use Rattle.std.specs.Prelude.{ℕ};

    ghost Value = { ℕ };

    ghost view = { λ kinds. kinds.0 };

    ghost inverse = { λ bits. record { 0 = bits } };
}

// The set of this kind alone, as a number.
fn bit(kind: Kind) -> u32
    ensures { result ≡ 2 ^ place kind }
{
    match kind {
        Kind::Ready => 1 << 0,
        Kind::Resumed => 1 << 1,
        Kind::GuildCreate => 1 << 2,
        Kind::GuildUpdate => 1 << 3,
        Kind::GuildDelete => 1 << 4,
        Kind::GuildRoleCreate => 1 << 5,
        Kind::GuildRoleUpdate => 1 << 6,
        Kind::GuildRoleDelete => 1 << 7,
        Kind::ChannelCreate => 1 << 8,
        Kind::ChannelUpdate => 1 << 9,
        Kind::ChannelDelete => 1 << 10,
        Kind::ThreadCreate => 1 << 11,
        Kind::ThreadUpdate => 1 << 12,
        Kind::ThreadDelete => 1 << 13,
        Kind::ThreadListSync => 1 << 14,
        Kind::ThreadMembersUpdate => 1 << 15,
        Kind::GuildMemberAdd => 1 << 16,
        Kind::GuildMemberUpdate => 1 << 17,
        Kind::GuildMemberRemove => 1 << 18,
        Kind::GuildMembersChunk => 1 << 19,
        Kind::VoiceStateUpdate => 1 << 20,
        Kind::PresenceUpdate => 1 << 21,
        Kind::MessageCreate => 1 << 22,
        Kind::MessageUpdate => 1 << 23,
        Kind::MessageDelete => 1 << 24,
        Kind::MessageReactionAdd => 1 << 25,
        Kind::MessageReactionRemove => 1 << 26,
        Kind::TypingStart => 1 << 27,
    }
}

impl KindSet {
    /// The set of every kind.
    pub fn all() -> KindSet
        ensures { (kind : AKind) → holds result kind ≡ true }
    {
        KindSet((1 << 28) - 1)
    }

    /// The set of this kind alone.
    pub fn of(kind: Kind) -> KindSet
        ensures { (k : AKind) → IsTrue (holds result k) ↔ (k ≡ kind) }
    {
        KindSet(bit(kind))
    }

    /// This set and this kind.
    pub fn with(self, kind: Kind) -> KindSet
        ensures { (k : AKind) → IsTrue (holds result k) ↔ (IsTrue (holds self k) ⊎ (k ≡ kind)) }
    {
        KindSet(self.0 | bit(kind))
    }

    /// Whether this set has this kind.
    pub fn has(self, kind: Kind) -> bool
        ensures { result ≡ holds self kind }
    {
        let bit = bit(kind);
        self.0 & bit == bit
    }
}
