//! `message_create`: creates a message, and drops the oldest kept message where there is no room for it
//! (Gateway Events, Message Create).

ghost use Rattle.std.specs.Prelude.{◌≡◌, None, true, OnOk, OnErr, IfOk, option_map};
ghost use Rattle.collections.specs.ById.{find_id};
ghost use Rattle.guild_model.specs.Tests.{outcome};
ghost use Rattle.guild_model.specs.Record.{member_id};
ghost use Rattle.guild_model.specs.Consistent.{is_channel_or_thread};
ghost use Rattle.guild_model.specs.Heads.{find_head};
ghost use Rattle.message_edit.specs.Messages.{message_create_verdict, member_user, with_head, message_created};

use crate::body::MessageBody;
use crate::channel::{knows_mentioned, takes_words};
use collections::Duplicate;
use guild_model::{Guild, MessageHead, User, Verdict, limits, rules};
use snowflake_id::Snowflake;
use std::alloc::{AllocError, Global};

/// A new message.
#[derive(Drop)]
pub struct MessageCreate {
    pub message: Snowflake,
    /// The channel or the thread that it is created in.
    pub channel: Snowflake,
    pub author: Snowflake,
    pub body: MessageBody,
}

impl MessageCreate {
    /// An edit that is equal to this.
    pub fn copy(&self, alloc: Global) -> Result<MessageCreate, AllocError>
        ensures { IfOk result (λ copy. copy ≡ self.now) }
    {
        Ok(MessageCreate {
            message: self.message,
            channel: self.channel,
            author: self.author,
            body: self.body.copy(alloc)?,
        })
    }
}

/// Refused in this order: `UnknownChannel`, `WrongType` and `Archived` for the channel, `UnknownMember`
/// for the author, then for a mentioned user, `IdTaken` where a kept message has the id, `TooLong`.
pub fn check(guild: &Guild, edit: &MessageCreate) -> Result<(), Verdict>
    ensures { result ≡ outcome (message_create_verdict guild.now edit.now) }
{
    takes_words(guild, edit.channel)?;
    rules::knows_member(guild, edit.author)?;
    knows_mentioned(guild, edit.body.mentions.as_slice())?;
    if guild.messages.contains(edit.message) {
        return Err(Verdict::IdTaken);
    }
    rules::within(&edit.body.content, limits::CONTENT_BYTES)
}

fn author_of(alloc: Global, guild: &Guild, author: Snowflake) -> Result<Option<User>, AllocError>
    ensures { IfOk result (λ user. user ≡ option_map member_user (find_id member_id author guild.now.members)) }
{
    match guild.members.get(author.0) {
        Some(member) => Ok(Some(member.user.duplicate(alloc)?)),
        None => Ok(None),
    }
}

fn keep(guild: &mut Guild, head: MessageHead) -> Result<(), AllocError>
    requires open { guild.old.opened ≡ true }
    requires free { find_head head.id guild.old.messages ≡ None }
    requires channel { is_channel_or_thread guild.old head.channel ≡ true }
    ensures ok { OnOk result (guild.new ≡ with_head guild.old head) }
    ensures err { OnErr result (guild.new ≡ guild.old) }
{
    guild.messages.push(head)?;
    Ok(())
}

/// Keeps the message as the newest, with the user that its author now is. If it runs out of memory,
/// the record stays as it was.
pub fn apply(alloc: Global, guild: &mut Guild, edit: MessageCreate) -> Result<(), AllocError>
    requires open { guild.old.opened ≡ true }
    requires accepted { message_create_verdict guild.old edit ≡ None }
    ensures ok { OnOk result (guild.new ≡ message_created guild.old edit) }
    ensures err { OnErr result (guild.new ≡ guild.old) }
{
    match author_of(alloc, guild, edit.author)? {
        Some(author) => keep(
            guild,
            MessageHead {
                id: edit.message,
                channel: edit.channel,
                author,
                mentions: edit.body.mentions,
            },
        ),
        None => Ok(()),
    }
}
