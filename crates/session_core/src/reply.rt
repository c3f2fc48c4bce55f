//! What the worker has to do after a call.

use gateway_frames::{Ask, Out, VoiceAsk};
use guild_model::Status;
use payload_text::Payload;
use snowflake_id::Snowflake;

/// What the worker has to do after a call, in order.
#[derive(Drop)]
pub enum Reply {
    /// Send a payload to a connection.
    Send(u32, Out),
    /// Send the text of a dispatch to a connection again, on Resume.
    Text(u32, Payload),
    /// Close a connection with a code.
    Close(u32, u16),
    /// Send READY and the guilds to a session that begins.
    Begin(u32),
    /// Answer Request Guild Members (op 8) of a session's client.
    Ask(u32, Ask),
    /// Handle Update Presence (op 3) of a session's client.
    Presence(u32, Status),
    /// Handle Update Voice State (op 4) of a session's client.
    Voice(u32, VoiceAsk),
}

/// Why a dispatch was made: for a session's start, for an entry of a guild's log by its position
/// from 1, or as one of the chunks that a worker made, counted from 1.
#[derive(Clone, Copy, PartialEq, Eq, Debug)]
pub enum Mark {
    Start,
    Entry(Snowflake, u64),
    Chunk(u64),
}
