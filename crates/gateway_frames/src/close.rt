//! The codes with which a connection is closed (Opcodes and Status Codes, Gateway Close Event Codes).

/// Unknown error. The gateway sends it if there is no room for a connection or a session, to a
/// connection without a heartbeat for too long, and to the older connection of a session that resumes
/// on another. A client sends it to leave a connection for another.
pub const UNKNOWN_ERROR: u16 = 4000;

/// Unknown opcode.
pub const UNKNOWN_OPCODE: u16 = 4001;

/// Decode error: the frame is too long, is no JSON or has a bad shape.
pub const DECODE_ERROR: u16 = 4002;

/// Not authenticated: a frame came before Identify.
pub const NOT_AUTHENTICATED: u16 = 4003;

/// Authentication failed: no bot has the token.
pub const AUTHENTICATION_FAILED: u16 = 4004;

/// Already authenticated: the connection has a session.
pub const ALREADY_AUTHENTICATED: u16 = 4005;

/// Invalid seq: a resume names a number that the session has not reached.
pub const INVALID_SEQ: u16 = 4007;

/// Rate limited: there were too many frames.
pub const RATE_LIMITED: u16 = 4008;

/// Invalid shard.
pub const INVALID_SHARD: u16 = 4010;

/// Sharding required: the bot has too many guilds for one session. The gateway does not send it.
pub const SHARDING_REQUIRED: u16 = 4011;

/// Invalid API version. The gateway does not send it.
pub const INVALID_API_VERSION: u16 = 4012;

/// Invalid intents: a bit is no intent.
pub const INVALID_INTENTS: u16 = 4013;

/// Disallowed intents: the bot may not ask for one of them.
pub const DISALLOWED_INTENTS: u16 = 4014;
