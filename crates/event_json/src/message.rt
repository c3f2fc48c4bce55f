//! The bodies of MESSAGE_DELETE, of the reactions' dispatches and of TYPING_START.

ghost use Rattle.std.specs.Prelude.{◌≡◌, OnOk, codes};
ghost use Rattle.json_view.specs.Nodes.{view};
ghost use Rattle.object_json.specs.Reading.{UnlessMemory};
ghost use Rattle.object_json.specs.Added.{Adds, AddsTokens, member_tokens};
ghost use Rattle.event_json.specs.Message.{message_delete_data, emoji_data, reaction_data, typing_start_data, message_delete_from, emoji_at, reaction_from, typing_start_from, MessageDeleteFits, ReactionFits, TypingStartFits};

use collections::Text;
use dispatch_types::{MessageDelete, Reaction, TypingStart};
use json::Writer;
use json_view::Node;
use object_json::fault::ReadFault;
use object_json::field::{close, id_field, key, null_field, number_field, open, text_field};
use object_json::reading::{field_at, id_at, number_at, text_at};
use std::alloc::{AllocError, Global};

/// Writes the body of Message Delete.
pub fn write_message_delete(out: &mut Writer, delete: &MessageDelete) -> Result<(), AllocError>
    ensures adds { Adds result out.old out.new (message_delete_data delete.now) }
    ensures fits { OnOk result (MessageDeleteFits delete.now) }
{
    open(out)?;
    id_field(out, "channel_id", delete.channel)?;
    id_field(out, "guild_id", delete.guild)?;
    id_field(out, "id", delete.id)?;
    close(out)?;
    Ok(())
}

fn emoji_field(out: &mut Writer, name: &Text) -> Result<(), AllocError>
    ensures { AddsTokens result out.old out.new (member_tokens (codes "emoji") (emoji_data name.now)) }
{
    key(out, "emoji")?;
    open(out)?;
    null_field(out, "id")?;
    text_field(out, "name", name)?;
    close(out)?;
    Ok(())
}

/// Writes the body of Message Reaction Add and of Message Reaction Remove.
pub fn write_reaction(out: &mut Writer, reaction: &Reaction) -> Result<(), AllocError>
    ensures adds { Adds result out.old out.new (reaction_data reaction.now) }
    ensures fits { OnOk result (ReactionFits reaction.now) }
{
    open(out)?;
    id_field(out, "channel_id", reaction.channel)?;
    emoji_field(out, &reaction.emoji)?;
    id_field(out, "guild_id", reaction.guild)?;
    id_field(out, "message_id", reaction.message)?;
    id_field(out, "user_id", reaction.user)?;
    close(out)?;
    Ok(())
}

/// Writes the body of Typing Start.
pub fn write_typing_start(out: &mut Writer, typing: &TypingStart) -> Result<(), AllocError>
    ensures adds { Adds result out.old out.new (typing_start_data typing.now) }
    ensures fits { OnOk result (TypingStartFits typing.now) }
{
    open(out)?;
    id_field(out, "channel_id", typing.channel)?;
    id_field(out, "guild_id", typing.guild)?;
    number_field(out, "timestamp", typing.seconds)?;
    id_field(out, "user_id", typing.user)?;
    close(out)?;
    Ok(())
}

/// Reads the body of Message Delete.
pub fn read_message_delete(body: &Node<'_>) -> Result<MessageDelete, ReadFault>
    ensures { result ≡ message_delete_from (view body.now) }
{
    let channel = id_at(body, "channel_id")?;
    let guild = id_at(body, "guild_id")?;
    let id = id_at(body, "id")?;
    Ok(MessageDelete { guild, channel, id })
}

fn emoji_at(alloc: Global, body: &Node<'_>) -> Result<Text, ReadFault>
    ensures { UnlessMemory result (emoji_at (view body.now)) }
{
    let emoji = field_at(body, "emoji")?;
    text_at(alloc, emoji, "name")
}

/// Reads the body of Message Reaction Add and of Message Reaction Remove.
pub fn read_reaction(alloc: Global, body: &Node<'_>) -> Result<Reaction, ReadFault>
    ensures { UnlessMemory result (reaction_from (view body.now)) }
{
    let channel = id_at(body, "channel_id")?;
    let emoji = emoji_at(alloc, body)?;
    let guild = id_at(body, "guild_id")?;
    let message = id_at(body, "message_id")?;
    let user = id_at(body, "user_id")?;
    Ok(Reaction {
        guild,
        channel,
        message,
        user,
        emoji,
    })
}

/// Reads the body of Typing Start.
pub fn read_typing_start(body: &Node<'_>) -> Result<TypingStart, ReadFault>
    ensures { result ≡ typing_start_from (view body.now) }
{
    let channel = id_at(body, "channel_id")?;
    let guild = id_at(body, "guild_id")?;
    let seconds = number_at(body, "timestamp")?;
    let user = id_at(body, "user_id")?;
    Ok(TypingStart {
        guild,
        channel,
        user,
        seconds,
    })
}
