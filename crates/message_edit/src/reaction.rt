//! `reaction_add` and `reaction_remove`: add a user's reaction to a message, and remove it. The record
//! keeps no reactions (Gateway Events, Message Reaction Add and Remove).

ghost use Rattle.std.specs.Prelude.{◌≡◌, IfOk};
ghost use Rattle.guild_model.specs.Tests.{outcome};
ghost use Rattle.message_edit.specs.Messages.{reaction_verdict};

use collections::Text;
use guild_model::{Guild, Verdict, limits, rules};
use snowflake_id::Snowflake;
use std::alloc::{AllocError, Global};

/// A user's reaction to a message.
#[derive(Drop)]
pub struct ReactionBody {
    pub message: Snowflake,
    pub user: Snowflake,
    pub emoji: Text,
}

impl ReactionBody {
    /// A reaction that is equal to this.
    pub fn copy(&self, alloc: Global) -> Result<ReactionBody, AllocError>
        ensures { IfOk result (λ copy. copy ≡ self.now) }
    {
        Ok(ReactionBody {
            message: self.message,
            user: self.user,
            emoji: self.emoji.copy(alloc)?,
        })
    }
}

/// Refused in this order: `UnknownMessage`, `UnknownMember`, `TooLong` for the emoji's name.
pub fn check(guild: &Guild, reaction: &ReactionBody) -> Result<(), Verdict>
    ensures { result ≡ outcome (reaction_verdict guild.now reaction.now) }
{
    rules::knows_message(guild, reaction.message)?;
    rules::knows_member(guild, reaction.user)?;
    rules::within(&reaction.emoji, limits::EMOJI_BYTES)
}
