//! The bits of intents as flags of `bitflags`.

ghost use Rattle.std.specs.Prelude.{⊤};
ghost use Rattle.intent_set.specs.Intents.{named_intents};

use bitflags::{Flag, Flags, bitflag_items};

/// The bits of intents as a plain number, which may have other bits too.
#[derive(Clone, Copy, PartialEq, Eq, Debug)]
pub struct IntentBits(pub(crate) u64);

bitflag_items! {
    impl IntentBits: u64 {
        const GUILDS = 1 << 0;
        const GUILD_MEMBERS = 1 << 1;
        const GUILD_MODERATION = 1 << 2;
        const GUILD_EXPRESSIONS = 1 << 3;
        const GUILD_INTEGRATIONS = 1 << 4;
        const GUILD_WEBHOOKS = 1 << 5;
        const GUILD_INVITES = 1 << 6;
        const GUILD_VOICE_STATES = 1 << 7;
        const GUILD_PRESENCES = 1 << 8;
        const GUILD_MESSAGES = 1 << 9;
        const GUILD_MESSAGE_REACTIONS = 1 << 10;
        const GUILD_MESSAGE_TYPING = 1 << 11;
        const DIRECT_MESSAGES = 1 << 12;
        const DIRECT_MESSAGE_REACTIONS = 1 << 13;
        const DIRECT_MESSAGE_TYPING = 1 << 14;
        const MESSAGE_CONTENT = 1 << 15;
        const GUILD_SCHEDULED_EVENTS = 1 << 16;
        const AUTO_MODERATION_CONFIGURATION = 1 << 20;
        const AUTO_MODERATION_EXECUTION = 1 << 21;
        const GUILD_MESSAGE_POLLS = 1 << 24;
        const DIRECT_MESSAGE_POLLS = 1 << 25;
    }
}

impl Flags for IntentBits {
    type Bits = u64;

    ghost exact = { ⊤ };

    ghost table = { named_intents };

    ghost set_of = { λ bits. bits.0 };

    fn flags<'a>() -> &'a [Flag<IntentBits>] {
        IntentBits::FLAGS
    }

    fn bits(&self) -> u64 {
        self.0
    }

    fn from_bits_retain(bits: u64) -> IntentBits {
        IntentBits(bits)
    }
}
