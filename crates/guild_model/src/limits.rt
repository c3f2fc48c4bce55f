//! What a guild and its texts may have at most.

/// Roles of a guild, @everyone among them.
pub const ROLES: u32 = 250;

/// Members of a guild.
pub const MEMBERS: u32 = 5000;

/// Channels of a guild, without threads.
pub const CHANNELS: u32 = 500;

/// Overwrites of a channel, those of roles and of members together.
pub const OVERWRITES: u32 = 100;

/// Bytes of the name of a guild, a user, a role or a channel.
pub const NAME_BYTES: u32 = 100;

/// Bytes of a member's nickname.
pub const NICK_BYTES: u32 = 32;

/// Messages of a guild that are kept: the latest.
pub const MESSAGES: u32 = 16_384;

/// Bytes of the content of a message.
pub const CONTENT_BYTES: u32 = 2000;

/// Bytes of the name of an emoji.
pub const EMOJI_BYTES: u32 = 32;

/// Users that a message mentions.
pub const MENTIONS: u32 = 100;

/// Embeds, attachments or components of a message, of each at most so many.
pub const PARTS: u8 = 10;

/// Threads of a guild that are not archived.
pub const ACTIVE_THREADS: u32 = 1000;

/// Threads of a guild, archived ones too.
pub const THREADS: u32 = 4096;
