//! The kinds of step files, and what a line says.

use collections::Text;
use edit_apply::Edit;
use intent_set::Intents;
use snowflake_id::Snowflake;

/// What a file of lines is for.
#[derive(Clone, Copy, PartialEq, Eq, Debug)]
pub enum FileKind {
    /// Everything that reaches the server, in order.
    Run,
    /// The edits of one source, which runs beside others.
    Script,
}

/// What a line of a step file says.
#[derive(Drop)]
pub enum Line {
    /// Declares a bot, the privileged intents that it may ask for, and how much the server keeps of what
    /// a session of it was sent: the last dispatches, at most so many and of at most so many bytes of
    /// text, which a Resume sends again. `v` is the version of the line, 1 or 2. Version 1 always means
    /// [`crate::RING_ITEMS`] and [`crate::RING_BYTES`]. A bot in version 2 has 1 to
    /// [`crate::MAX_RING_ITEMS`] dispatches, and [`crate::MIN_RING_BYTES`] to
    /// [`crate::MAX_RING_BYTES`] bytes.
    Bot {
        token: Text,
        user: Snowflake,
        name: Text,
        privileged: Intents,
        v: u8,
        ring_items: u32,
        ring_bytes: u32,
    },
    /// Declares a guild, with an empty log.
    Guild {
        id: Snowflake,
    },
    /// Enters an edit into a guild's log.
    Edit {
        guild: Snowflake,
        edit: Edit,
    },
    /// A worker handles the new entries of a guild's log.
    Look {
        worker: u8,
        guild: Snowflake,
    },
    /// A client connects to a worker.
    Open {
        worker: u8,
        conn: u32,
    },
    /// A client sends a text.
    Frame {
        conn: u32,
        text: Text,
    },
    /// A connection is lost.
    Lost {
        conn: u32,
    },
    /// A client closes its connection with a code (Gateway Opcodes and Status Codes).
    Closed {
        conn: u32,
        code: u16,
    },
    /// A worker's clock goes to a moment, in milliseconds.
    Tick {
        worker: u8,
        now: u64,
    },
}
