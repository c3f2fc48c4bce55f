//! What a message says.

ghost use Rattle.std.specs.Prelude.{◌≡◌, IfOk};

use collections::{Seq, Text};
use guild_model::PartCount;
use snowflake_id::Snowflake;
use std::alloc::{AllocError, Global};

/// What a message says (Message Resource, Message Object). Its embeds, attachments and components are
/// only counted.
#[derive(Drop)]
pub struct MessageBody {
    pub content: Text,
    /// The mentioned users, in the order of the message. A user may stand twice.
    pub mentions: Seq<Snowflake>,
    pub embeds: PartCount,
    pub attachments: PartCount,
    pub components: PartCount,
}

impl MessageBody {
    /// A body that is equal to this.
    pub fn copy(&self, alloc: Global) -> Result<MessageBody, AllocError>
        ensures { IfOk result (λ copy. copy ≡ self.now) }
    {
        Ok(MessageBody {
            content: self.content.copy(alloc)?,
            mentions: self.mentions.copy(alloc)?,
            embeds: self.embeds,
            attachments: self.attachments,
            components: self.components,
        })
    }
}
