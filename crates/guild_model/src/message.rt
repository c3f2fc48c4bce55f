//! What a guild keeps of a message.

ghost use Rattle.std.specs.Prelude.{◌≡◌, IfOk};

use crate::user::User;
use collections::{Duplicate, Seq};
use snowflake_id::Snowflake;
use std::alloc::{AllocError, Global};

/// What a guild keeps of a message (Message Resource, Message Object).
pub struct MessageHead {
    pub id: Snowflake,
    /// The channel or thread that the message stands in.
    pub channel: Snowflake,
    pub author: User,
    /// The mentioned users, in the order of the message.
    pub mentions: Seq<Snowflake>,
}

impl Drop for MessageHead {
    fn drop(self) {
        let MessageHead {
            id: _,
            channel: _,
            author,
            mentions,
        } = self;
        drop(author);
        drop(mentions);
    }
}

impl Duplicate for MessageHead {
    fn duplicate(&self, alloc: Global) -> Result<MessageHead, AllocError> {
        Ok(MessageHead {
            id: self.id,
            channel: self.channel,
            author: self.author.duplicate(alloc)?,
            mentions: self.mentions.copy(alloc)?,
        })
    }
}
