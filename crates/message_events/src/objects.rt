//! Messages and reactions as they are sent (Message Resource, Message Object; Gateway Events, Message
//! Reaction Add).

ghost use Rattle.std.specs.Prelude.{◌≡◌, ◌++◌, [], IfOk, OnOk, if◌then◌else◌};
ghost use Rattle.std.specs.Option.{option_to_list};
ghost use Rattle.message_events.specs.Dispatches.{mentioned, message_of, reaction_of, user_of};
ghost use Rattle.message_events.specs.Forms.{content_if};

use collections::{Duplicate, Seq, Text};
use dispatch_types::{MessageObject, Reaction};
use guild_model::{Guild, MessageHead, PartCount, User};
use message_edit::{MessageBody, ReactionBody};
use snowflake_id::Snowflake;
use std::alloc::{AllocError, Global};

/// A user as the member that it is now. `None` exactly if it is not a member.
pub fn user_of(alloc: Global, guild: &Guild, user: Snowflake) -> Result<Option<User>, AllocError>
    ensures { IfOk result (λ found. found ≡ user_of guild.now user) }
{
    match guild.member(user) {
        Some(member) => Ok(Some(member.user.duplicate(alloc)?)),
        None => Ok(None),
    }
}

fn add_mentioned(
    alloc: Global,
    guild: &Guild,
    user: Snowflake,
    list: &mut Seq<User>,
) -> Result<(), AllocError>
    ensures { OnOk result (list.new ≡ list.old ++ option_to_list (user_of guild.now user)) }
{
    match user_of(alloc, guild, user)? {
        Some(user) => list.push(user),
        None => Ok(()),
    }
}

// The mentioned users as the members that they are now, in the order of the message, repeats too.
fn mentioned(alloc: Global, guild: &Guild, users: &[Snowflake]) -> Result<Seq<User>, AllocError>
    ensures { IfOk result (λ list. list ≡ mentioned guild.now users.now) }
{
    let mut list = Seq::new(alloc);
    for user in users {
        add_mentioned(alloc, guild, *user, &mut list)?;
    }
    Ok(list)
}

/// Which message a dispatch is about, and who wrote it.
#[derive(Drop)]
pub struct Written {
    pub channel: Snowflake,
    pub id: Snowflake,
    pub author: User,
}

fn content(alloc: Global, with_content: bool, body: &MessageBody) -> Result<Text, AllocError>
    ensures { IfOk result (λ text. text ≡ (if with_content then body.now.content else [])) }
{
    if with_content {
        body.content.copy(alloc)
    } else {
        Ok(Text::empty())
    }
}

fn parts(with_content: bool, count: PartCount) -> PartCount
    ensures { result ≡ (if with_content then count else 0) }
{
    if with_content { count } else { PartCount::NONE }
}

/// The wire form of a message of this body, with its content or without.
pub fn message_of(
    alloc: Global,
    guild: &Guild,
    with_content: bool,
    written: Written,
    body: &MessageBody,
) -> Result<MessageObject, AllocError>
    ensures { IfOk result (λ object. object
        ≡ content_if with_content (message_of guild.now written.id written.channel body.now written.author)) }
{
    Ok(MessageObject {
        guild: guild.id,
        channel: written.channel,
        id: written.id,
        author: written.author,
        content: content(alloc, with_content, body)?,
        mentions: mentioned(alloc, guild, body.mentions.as_slice())?,
        embeds: parts(with_content, body.embeds),
        attachments: parts(with_content, body.attachments),
        components: parts(with_content, body.components),
    })
}

/// The wire form of a reaction to a message.
pub fn reaction_of(
    alloc: Global,
    guild: &Guild,
    reaction: &ReactionBody,
    head: &MessageHead,
) -> Result<Reaction, AllocError>
    ensures { IfOk result (λ sent. sent ≡ reaction_of guild.now reaction.now head.now) }
{
    Ok(Reaction {
        guild: guild.id,
        channel: head.channel,
        message: head.id,
        user: reaction.user,
        emoji: reaction.emoji.copy(alloc)?,
    })
}
