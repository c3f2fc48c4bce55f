//! `message_update`: replaces the body of a message. The record keeps only the mentions (Gateway
//! Events, Message Update).

ghost use Rattle.std.specs.Prelude.{◌≡◌, true, IfOk};
ghost use Rattle.guild_model.specs.Tests.{outcome};
ghost use Rattle.message_edit.specs.Messages.{message_update_verdict, message_updated};

use crate::body::MessageBody;
use crate::channel::knows_mentioned;
use guild_model::{Guild, Verdict, limits, rules};
use snowflake_id::Snowflake;
use std::alloc::{AllocError, Global};

/// The new body of a message.
#[derive(Drop)]
pub struct MessageUpdate {
    pub message: Snowflake,
    pub body: MessageBody,
}

impl MessageUpdate {
    /// An edit that is equal to this.
    pub fn copy(&self, alloc: Global) -> Result<MessageUpdate, AllocError>
        ensures { IfOk result (λ copy. copy ≡ self.now) }
    {
        Ok(MessageUpdate {
            message: self.message,
            body: self.body.copy(alloc)?,
        })
    }
}

/// Refused in this order: `UnknownMessage`, `UnknownMember` for a mentioned user, `TooLong`.
pub fn check(guild: &Guild, edit: &MessageUpdate) -> Result<(), Verdict>
    ensures { result ≡ outcome (message_update_verdict guild.now edit.now) }
{
    rules::knows_message(guild, edit.message)?;
    knows_mentioned(guild, edit.body.mentions.as_slice())?;
    rules::within(&edit.body.content, limits::CONTENT_BYTES)
}

/// Replaces the mentions of the message.
pub fn apply(guild: &mut Guild, edit: MessageUpdate)
    requires { guild.old.opened ≡ true }
    ensures { guild.new ≡ message_updated guild.old edit }
{
    guild
        .messages
        .set_mentions(edit.message, edit.body.mentions);
}
