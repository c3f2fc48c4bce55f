//! Voice states and presences, and VOICE_STATE_UPDATE.

ghost use Rattle.std.specs.Prelude.{◌≡◌};
ghost use Rattle.dispatch_types.specs.Objects.{voice_object, presence_object};

use guild_model::{Presence, ShownStatus, Voice};
use snowflake_id::Snowflake;

/// The wire form of a voice state (Voice Resource, Voice State Object). Without a channel the user is
/// in voice no longer.
#[derive(Clone, Copy, PartialEq, Eq, Debug)]
pub struct VoiceObject {
    pub user: Snowflake,
    pub channel: Option<Snowflake>,
    pub self_mute: bool,
    pub self_deaf: bool,
}

/// A user's voice state in a guild (Gateway Events, Voice State Update).
#[derive(Clone, Copy, PartialEq, Eq, Debug)]
pub struct VoiceStateUpdate {
    pub guild: Snowflake,
    pub voice: VoiceObject,
}

/// The wire form of a presence (Gateway Events, Presence Update). A user without a shown status is
/// offline.
#[derive(Clone, Copy, PartialEq, Eq, Debug)]
pub struct PresenceObject {
    pub guild: Snowflake,
    pub user: Snowflake,
    pub status: Option<ShownStatus>,
}

impl VoiceObject {
    /// The wire form of a voice state of a guild.
    pub fn of(voice: &Voice) -> VoiceObject
        ensures { result ≡ voice_object voice.now }
    {
        VoiceObject {
            user: voice.user,
            channel: Some(voice.channel),
            self_mute: voice.self_mute,
            self_deaf: voice.self_deaf,
        }
    }
}

impl PresenceObject {
    /// The wire form of a presence in a guild.
    pub fn of(guild: Snowflake, presence: &Presence) -> PresenceObject
        ensures { result ≡ presence_object guild presence.now }
    {
        PresenceObject {
            guild,
            user: presence.user,
            status: Some(presence.status),
        }
    }
}
