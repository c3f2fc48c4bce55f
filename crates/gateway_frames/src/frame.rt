//! The frames that a client sends (Gateway Events, Send Events).

use collections::{Seq, Text};
use guild_model::Status;
use snowflake_id::Snowflake;

/// What a client sends (Gateway Events, Send Events).
#[derive(Drop)]
pub enum Frame {
    /// Heartbeat (op 1), with the number of the last dispatch that the client has.
    Heartbeat(Option<u64>),
    /// Identify (op 2).
    Identify(Identify),
    /// Update Presence (op 3), with the new status.
    Presence(Status),
    /// Update Voice State (op 4).
    Voice(VoiceAsk),
    /// Resume (op 6).
    Resume(Resume),
    /// Request Guild Members (op 8).
    Ask(Ask),
}

/// Begins a session (Gateway Events, Identify).
pub struct Identify {
    /// The bot's token.
    pub token: Text,
    /// The bits of the intents, in wire form.
    pub intents: u64,
    /// The number of members above which a guild is large.
    pub large_threshold: Option<u64>,
    /// The shard's id and the number of shards.
    pub shard: Option<(u64, u64)>,
}

impl Drop for Identify {
    fn drop(self) {
        let Identify {
            token,
            intents: _,
            large_threshold: _,
            shard: _,
        } = self;
        drop(token);
    }
}

/// Update Voice State (op 4): joins a voice channel, moves to another, or leaves.
#[derive(Clone, Copy, Debug, PartialEq, Eq)]
pub struct VoiceAsk {
    pub guild: Snowflake,
    /// The channel to be in, or `None` to leave.
    pub channel: Option<Snowflake>,
    pub self_mute: bool,
    pub self_deaf: bool,
}

/// Resumes a session (Gateway Events, Resume).
pub struct Resume {
    /// The bot's token.
    pub token: Text,
    /// The session's id.
    pub session: Text,
    /// The number of the last dispatch that the client has.
    pub seq: u64,
}

impl Drop for Resume {
    fn drop(self) {
        let Resume {
            token,
            session,
            seq: _,
        } = self;
        drop(token);
        drop(session);
    }
}

/// Request Guild Members (op 8).
#[derive(Drop)]
pub struct Ask {
    pub guild: Snowflake,
    pub find: Find,
    /// Whether presences are asked for too.
    pub presences: Option<bool>,
    /// A text that the answer gives back.
    pub nonce: Option<Text>,
}

/// Which members Request Guild Members (op 8) asks for.
#[derive(Drop)]
pub enum Find {
    /// Those whose name begins with a text, and at most how many.
    Query { query: Text, limit: Option<u64> },
    /// Those of these ids.
    Users(Seq<Snowflake>),
}
