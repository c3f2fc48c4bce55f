//! The edits of messages, reactions and typing: when each is refused, and what it makes of a guild's
//! record.
#![tactic(auto)]

ghost use Rattle.std.specs.Prelude.{◌≡◌, None, true, IfOk, OnOk, OnErr};
ghost use Rattle.guild_model.specs.Tests.{outcome};
ghost use Rattle.message_edit.specs.MessageEdits.{message_verdict, message_applied};

pub mod body;
pub mod channel;
pub mod message_create;
pub mod message_delete;
pub mod message_update;
pub mod reaction;
pub mod typing;

pub use body::MessageBody;
use guild_model::{Guild, Verdict};
pub use message_create::MessageCreate;
pub use message_update::MessageUpdate;
pub use reaction::ReactionBody;
use snowflake_id::Snowflake;
use std::alloc::{AllocError, Global};
pub use typing::Typing;

/// An edit of a guild's messages, of reactions to them, or of who types.
#[derive(Drop)]
pub enum MessageEdit {
    /// Creates a message in a channel or a thread.
    MessageCreate(MessageCreate),
    /// Replaces the body of a message.
    MessageUpdate(MessageUpdate),
    /// Deletes a message.
    MessageDelete { message: Snowflake },
    /// Adds a user's reaction to a message. Reactions are not kept.
    ReactionAdd(ReactionBody),
    /// Removes a user's reaction from a message.
    ReactionRemove(ReactionBody),
    /// Says that a user types in a channel or a thread.
    Typing(Typing),
}

/// Refuses an edit of an open guild with the verdict of its first test that fails. Does not
/// allocate.
pub fn check(guild: &Guild, edit: &MessageEdit) -> Result<(), Verdict>
    ensures { result ≡ outcome (message_verdict guild.now edit.now) }
{
    match edit {
        MessageEdit::MessageCreate(edit) => message_create::check(guild, edit),
        MessageEdit::MessageUpdate(edit) => message_update::check(guild, edit),
        MessageEdit::MessageDelete { message } => message_delete::check(guild, *message),
        MessageEdit::ReactionAdd(reaction) => reaction::check(guild, reaction),
        MessageEdit::ReactionRemove(reaction) => reaction::check(guild, reaction),
        MessageEdit::Typing(edit) => typing::check(guild, edit),
    }
}

/// Makes an edit that [`check`] does not refuse. If it runs out of memory, the record stays as it
/// was.
pub fn apply(alloc: Global, guild: &mut Guild, edit: MessageEdit) -> Result<(), AllocError>
    requires open { guild.old.opened ≡ true }
    requires accepted { message_verdict guild.old edit ≡ None }
    ensures ok { OnOk result (guild.new ≡ message_applied guild.old edit) }
    ensures err { OnErr result (guild.new ≡ guild.old) }
{
    match edit {
        MessageEdit::MessageCreate(edit) => message_create::apply(alloc, guild, edit)?,
        MessageEdit::MessageUpdate(edit) => message_update::apply(guild, edit),
        MessageEdit::MessageDelete { message } => message_delete::apply(guild, message),
        MessageEdit::ReactionAdd(reaction) => drop(reaction),
        MessageEdit::ReactionRemove(reaction) => drop(reaction),
        MessageEdit::Typing(_) => {}
    }
    Ok(())
}

impl MessageEdit {
    /// An edit that is equal to this.
    pub fn copy(&self, alloc: Global) -> Result<MessageEdit, AllocError>
        ensures { IfOk result (λ copy. copy ≡ self.now) }
    {
        Ok(match self {
            MessageEdit::MessageCreate(edit) => MessageEdit::MessageCreate(edit.copy(alloc)?),
            MessageEdit::MessageUpdate(edit) => MessageEdit::MessageUpdate(edit.copy(alloc)?),
            MessageEdit::MessageDelete { message } => {
                MessageEdit::MessageDelete { message: *message }
            }
            MessageEdit::ReactionAdd(reaction) => MessageEdit::ReactionAdd(reaction.copy(alloc)?),
            MessageEdit::ReactionRemove(reaction) => {
                MessageEdit::ReactionRemove(reaction.copy(alloc)?)
            }
            MessageEdit::Typing(edit) => MessageEdit::Typing(*edit),
        })
    }
}
