//! Messages and reactions, and MESSAGE_DELETE and TYPING_START.

use collections::{Seq, Text};
use guild_model::{PartCount, User};
use snowflake_id::Snowflake;

/// The wire form of a message (Message Resource, Message Object). Its time is that of its id; of its
/// embeds, attachments and components the numbers are kept.
pub struct MessageObject {
    pub guild: Snowflake,
    pub channel: Snowflake,
    pub id: Snowflake,
    pub author: User,
    pub content: Text,
    pub mentions: Seq<User>,
    pub embeds: PartCount,
    pub attachments: PartCount,
    pub components: PartCount,
}

impl Drop for MessageObject {
    fn drop(self) {
        let MessageObject {
            guild: _,
            channel: _,
            id: _,
            author,
            content,
            mentions,
            embeds: _,
            attachments: _,
            components: _,
        } = self;
        drop(author);
        drop(content);
        drop(mentions);
    }
}

/// A reaction of a user to a message (Gateway Events, Message Reaction Add).
pub struct Reaction {
    pub guild: Snowflake,
    pub channel: Snowflake,
    pub message: Snowflake,
    pub user: Snowflake,
    /// The emoji's name.
    pub emoji: Text,
}

impl Drop for Reaction {
    fn drop(self) {
        let Reaction {
            guild: _,
            channel: _,
            message: _,
            user: _,
            emoji,
        } = self;
        drop(emoji);
    }
}

/// A message that is deleted (Gateway Events, Message Delete).
#[derive(Clone, Copy, PartialEq, Eq, Debug)]
pub struct MessageDelete {
    pub guild: Snowflake,
    pub channel: Snowflake,
    pub id: Snowflake,
}

/// A user that types in a channel (Gateway Events, Typing Start).
#[derive(Clone, Copy, PartialEq, Eq, Debug)]
pub struct TypingStart {
    pub guild: Snowflake,
    pub channel: Snowflake,
    pub user: Snowflake,
    /// Whole seconds since 1970.
    pub seconds: u64,
}
