//! A set of intents, and which dispatches it asks for.

ghost use Rattle.std.specs.Prelude.{◌≡◌, ℕ, ◌^◌, ◌||◌, ◌&&◌, ◌↔◌, Some, codes, IsTrue, IsOk, IfOk, map};
ghost use Rattle.perm_bits.specs.Bits.{has_bit};
ghost use Rattle.intent_set.specs.Intents.{privileged_bits, is_among, HasIntentsAlone, named_intents};

use crate::flags::IntentBits;
use crate::kind::Kind;
use bitflags::Flags;
use std::error::Error;
use std::fmt;
use std::marker::Model;

/// A set of intents, which a clause sees as its number (Gateway, Gateway Intents). It has no bit
/// but those of intents.
#[derive(Clone, Copy, PartialEq, Eq, Debug)]
pub struct Intents(IntentBits);

impl Model for Intents {
    ghost use Rattle.std.specs.Prelude.{◌≡◌, ℕ};
    ghost use Rattle.std.specs.Int.RustNames.{bit_and};

    ghost Value = { ℕ };

    ghost view = { λ intents. intents.0.0 };

    ghost invariant = { λ intents. bit_and intents.0.0 53608447 ≡ intents.0.0 };

    ghost inverse = { λ bits. record { 0 = record { 0 = bits } } };
}

/// The number has a bit that is no intent's.
#[derive(Clone, Copy, PartialEq, Eq, Debug)]
pub struct UnknownIntent;

impl fmt::Display for UnknownIntent {
    ghost output = { λ _. Some (codes "a bit that is no intent's") };

    fn fmt<W: fmt::Write>(&self, f: &mut fmt::Formatter<W>) -> fmt::Result {
        write!(f, "a bit that is no intent's")
    }
}

impl Error for UnknownIntent {}

/// The intents by their names (Gateway, List of Intents).
impl Intents {
    /// Guilds, roles, channels and threads.
    pub const GUILDS: Intents = Intents(IntentBits::GUILDS);

    /// Members of a guild and of its threads. Privileged.
    pub const GUILD_MEMBERS: Intents = Intents(IntentBits::GUILD_MEMBERS);

    /// The audit log and bans.
    pub const GUILD_MODERATION: Intents = Intents(IntentBits::GUILD_MODERATION);

    /// Emojis, stickers and soundboard sounds.
    pub const GUILD_EXPRESSIONS: Intents = Intents(IntentBits::GUILD_EXPRESSIONS);

    /// Integrations.
    pub const GUILD_INTEGRATIONS: Intents = Intents(IntentBits::GUILD_INTEGRATIONS);

    /// Webhooks.
    pub const GUILD_WEBHOOKS: Intents = Intents(IntentBits::GUILD_WEBHOOKS);

    /// Invites.
    pub const GUILD_INVITES: Intents = Intents(IntentBits::GUILD_INVITES);

    /// Voice states.
    pub const GUILD_VOICE_STATES: Intents = Intents(IntentBits::GUILD_VOICE_STATES);

    /// Presences. Privileged.
    pub const GUILD_PRESENCES: Intents = Intents(IntentBits::GUILD_PRESENCES);

    /// Messages in guilds.
    pub const GUILD_MESSAGES: Intents = Intents(IntentBits::GUILD_MESSAGES);

    /// Reactions in guilds.
    pub const GUILD_MESSAGE_REACTIONS: Intents = Intents(IntentBits::GUILD_MESSAGE_REACTIONS);

    /// Typing in guilds.
    pub const GUILD_MESSAGE_TYPING: Intents = Intents(IntentBits::GUILD_MESSAGE_TYPING);

    /// Direct messages.
    pub const DIRECT_MESSAGES: Intents = Intents(IntentBits::DIRECT_MESSAGES);

    /// Reactions to direct messages.
    pub const DIRECT_MESSAGE_REACTIONS: Intents = Intents(IntentBits::DIRECT_MESSAGE_REACTIONS);

    /// Typing in direct messages.
    pub const DIRECT_MESSAGE_TYPING: Intents = Intents(IntentBits::DIRECT_MESSAGE_TYPING);

    /// What messages contain. It brings no event of its own. Privileged.
    pub const MESSAGE_CONTENT: Intents = Intents(IntentBits::MESSAGE_CONTENT);

    /// Scheduled events.
    pub const GUILD_SCHEDULED_EVENTS: Intents = Intents(IntentBits::GUILD_SCHEDULED_EVENTS);

    /// Rules of auto moderation.
    pub const AUTO_MODERATION_CONFIGURATION: Intents = Intents(
        IntentBits::AUTO_MODERATION_CONFIGURATION,
    );

    /// Actions of auto moderation.
    pub const AUTO_MODERATION_EXECUTION: Intents = Intents(IntentBits::AUTO_MODERATION_EXECUTION);

    /// Polls in guilds.
    pub const GUILD_MESSAGE_POLLS: Intents = Intents(IntentBits::GUILD_MESSAGE_POLLS);

    /// Polls in direct messages.
    pub const DIRECT_MESSAGE_POLLS: Intents = Intents(IntentBits::DIRECT_MESSAGE_POLLS);

    /// Every intent with its name, ascending by bit.
    pub fn named() -> [(&'static str, Intents); 21]
        ensures { map (λ row. (row.0.now, row.1)) result ≡ named_intents }
    {
        [
            ("GUILDS", Intents::GUILDS),
            ("GUILD_MEMBERS", Intents::GUILD_MEMBERS),
            ("GUILD_MODERATION", Intents::GUILD_MODERATION),
            ("GUILD_EXPRESSIONS", Intents::GUILD_EXPRESSIONS),
            ("GUILD_INTEGRATIONS", Intents::GUILD_INTEGRATIONS),
            ("GUILD_WEBHOOKS", Intents::GUILD_WEBHOOKS),
            ("GUILD_INVITES", Intents::GUILD_INVITES),
            ("GUILD_VOICE_STATES", Intents::GUILD_VOICE_STATES),
            ("GUILD_PRESENCES", Intents::GUILD_PRESENCES),
            ("GUILD_MESSAGES", Intents::GUILD_MESSAGES),
            ("GUILD_MESSAGE_REACTIONS", Intents::GUILD_MESSAGE_REACTIONS),
            ("GUILD_MESSAGE_TYPING", Intents::GUILD_MESSAGE_TYPING),
            ("DIRECT_MESSAGES", Intents::DIRECT_MESSAGES),
            (
                "DIRECT_MESSAGE_REACTIONS",
                Intents::DIRECT_MESSAGE_REACTIONS,
            ),
            ("DIRECT_MESSAGE_TYPING", Intents::DIRECT_MESSAGE_TYPING),
            ("MESSAGE_CONTENT", Intents::MESSAGE_CONTENT),
            ("GUILD_SCHEDULED_EVENTS", Intents::GUILD_SCHEDULED_EVENTS),
            (
                "AUTO_MODERATION_CONFIGURATION",
                Intents::AUTO_MODERATION_CONFIGURATION,
            ),
            (
                "AUTO_MODERATION_EXECUTION",
                Intents::AUTO_MODERATION_EXECUTION,
            ),
            ("GUILD_MESSAGE_POLLS", Intents::GUILD_MESSAGE_POLLS),
            ("DIRECT_MESSAGE_POLLS", Intents::DIRECT_MESSAGE_POLLS),
        ]
    }
}

impl Intents {
    ghost use Rattle.intent_set.specs.Asks.{asks};

    /// The set of this number; `UnknownIntent` exactly if a bit of it is no intent's.
    pub fn of_bits(bits: u64) -> Result<Intents, UnknownIntent>
        ensures value { IfOk result (λ intents. intents ≡ bits) }
        ensures accepted { IsOk result ↔ HasIntentsAlone bits }
    {
        match IntentBits::from_bits(bits) {
            Some(bits) => Ok(Intents(bits)),
            None => Err(UnknownIntent),
        }
    }

    /// The number of this set.
    pub fn bits(self) -> u64
        ensures value { result ≡ self }
        ensures within { HasIntentsAlone result }
    {
        self.0.0
    }

    /// Whether this has every one of these intents. For a named one that is its bit.
    pub fn has(self, intents: Intents) -> bool
        ensures every { IsTrue result ↔ ((b : ℕ) → IsTrue (has_bit intents b) → IsTrue (has_bit self b)) }
        ensures one { (b : ℕ) → intents ≡ 2 ^ b → result ≡ has_bit self b }
    {
        self.0.contains(intents.0)
    }

    /// The privileged intents of this set (Gateway, Privileged Intents).
    pub fn privileged(self) -> Intents
        ensures { (b : ℕ) → has_bit result b ≡ (has_bit self b && is_among privileged_bits b) }
    {
        Intents(IntentBits(self.0.0 & 33026))
    }

    /// Whether a session with these intents is sent dispatches of this kind, `own` saying that one
    /// is about the session's own bot.
    pub fn asks(self, kind: Kind, own: bool) -> bool
        ensures { result ≡ asks self kind own }
    {
        match kind {
            Kind::Ready | Kind::Resumed | Kind::GuildMembersChunk => true,
            Kind::GuildCreate
            | Kind::GuildUpdate
            | Kind::GuildDelete
            | Kind::GuildRoleCreate
            | Kind::GuildRoleUpdate
            | Kind::GuildRoleDelete
            | Kind::ChannelCreate
            | Kind::ChannelUpdate
            | Kind::ChannelDelete
            | Kind::ThreadCreate
            | Kind::ThreadUpdate
            | Kind::ThreadDelete
            | Kind::ThreadListSync => self.has(Intents::GUILDS),
            Kind::ThreadMembersUpdate => {
                self.has(Intents::GUILDS) && (own || self.has(Intents::GUILD_MEMBERS))
            }
            Kind::GuildMemberAdd | Kind::GuildMemberRemove => self.has(Intents::GUILD_MEMBERS),
            Kind::GuildMemberUpdate => own || self.has(Intents::GUILD_MEMBERS),
            Kind::VoiceStateUpdate => self.has(Intents::GUILD_VOICE_STATES),
            Kind::PresenceUpdate => self.has(Intents::GUILD_PRESENCES),
            Kind::MessageCreate | Kind::MessageUpdate | Kind::MessageDelete => {
                self.has(Intents::GUILD_MESSAGES)
            }
            Kind::MessageReactionAdd | Kind::MessageReactionRemove => {
                self.has(Intents::GUILD_MESSAGE_REACTIONS)
            }
            Kind::TypingStart => self.has(Intents::GUILD_MESSAGE_TYPING),
        }
    }
}
