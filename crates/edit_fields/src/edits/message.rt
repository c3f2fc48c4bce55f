//! Reads and writes the fields of the edits of messages, reactions and typing.

ghost use Rattle.std.specs.Prelude.{◌≡◌, OnOk};
ghost use Rattle.json_view.specs.Nodes.{view};
ghost use Rattle.edit_fields.specs.Fault.{UnlessMemory};
ghost use Rattle.edit_fields.specs.Fits.{IdFits, IdsFit, MomentFits, MessageEditFits};
ghost use Rattle.edit_fields.specs.Members.{HasPut};
ghost use Rattle.edit_fields.specs.MessageEdits.{body_from, message_create_from, message_update_from, reaction_from, typing_from, message_edit_from, message_edit_name, body_fields, message_create_fields, message_update_fields, reaction_fields, typing_fields, message_edit_fields};

use crate::LineFault;
use crate::fields::{id_at, ids_at, moment_at, parts_at, text_at};
use crate::members::{put_id, put_ids, put_moment, put_number, put_text};
use crate::names::MessageEditName;
use collections::Text;
use json_view::Node;
use message_edit::{MessageBody, MessageCreate, MessageEdit, MessageUpdate, ReactionBody, Typing};
use serde_json::{Map, Value};
use std::alloc::{AllocError, Global};

fn body_from(alloc: Global, object: &Node<'_>) -> Result<MessageBody, LineFault>
    ensures { UnlessMemory result (body_from (view object.now)) }
{
    let content = text_at(object, "content")?;
    let mentions = ids_at(alloc, object, "mentions")?;
    let embeds = parts_at(object, "embeds")?;
    let attachments = parts_at(object, "attachments")?;
    let components = parts_at(object, "components")?;
    let content = Text::new(alloc, content)?;
    Ok(MessageBody {
        content,
        mentions,
        embeds,
        attachments,
        components,
    })
}

fn message_create_from(alloc: Global, object: &Node<'_>) -> Result<MessageCreate, LineFault>
    ensures { UnlessMemory result (message_create_from (view object.now)) }
{
    let message = id_at(object, "message")?;
    let channel = id_at(object, "channel")?;
    let author = id_at(object, "author")?;
    let body = body_from(alloc, object)?;
    Ok(MessageCreate {
        message,
        channel,
        author,
        body,
    })
}

fn message_update_from(alloc: Global, object: &Node<'_>) -> Result<MessageUpdate, LineFault>
    ensures { UnlessMemory result (message_update_from (view object.now)) }
{
    let message = id_at(object, "message")?;
    let body = body_from(alloc, object)?;
    Ok(MessageUpdate { message, body })
}

fn reaction_from(alloc: Global, object: &Node<'_>) -> Result<ReactionBody, LineFault>
    ensures { UnlessMemory result (reaction_from (view object.now)) }
{
    let message = id_at(object, "message")?;
    let user = id_at(object, "user")?;
    let emoji = text_at(object, "emoji")?;
    let emoji = Text::new(alloc, emoji)?;
    Ok(ReactionBody {
        message,
        user,
        emoji,
    })
}

fn typing_from(object: &Node<'_>) -> Result<Typing, LineFault>
    ensures { result ≡ typing_from (view object.now) }
{
    let channel = id_at(object, "channel")?;
    let user = id_at(object, "user")?;
    let at = moment_at(object, "at")?;
    Ok(Typing { channel, user, at })
}

/// Reads the edit of this name from the fields of an object.
pub fn read(
    alloc: Global,
    name: MessageEditName,
    object: &Node<'_>,
) -> Result<MessageEdit, LineFault>
    ensures { UnlessMemory result (message_edit_from name (view object.now)) }
{
    Ok(match name {
        MessageEditName::MessageCreate => {
            MessageEdit::MessageCreate(message_create_from(alloc, object)?)
        }
        MessageEditName::MessageUpdate => {
            MessageEdit::MessageUpdate(message_update_from(alloc, object)?)
        }
        MessageEditName::MessageDelete => MessageEdit::MessageDelete {
            message: id_at(object, "message")?,
        },
        MessageEditName::ReactionAdd => MessageEdit::ReactionAdd(reaction_from(alloc, object)?),
        MessageEditName::ReactionRemove => {
            MessageEdit::ReactionRemove(reaction_from(alloc, object)?)
        }
        MessageEditName::Typing => MessageEdit::Typing(typing_from(object)?),
    })
}

/// The name of an edit.
pub fn name_of(edit: &MessageEdit) -> MessageEditName
    ensures { result ≡ message_edit_name edit.now }
{
    match edit {
        MessageEdit::MessageCreate(_) => MessageEditName::MessageCreate,
        MessageEdit::MessageUpdate(_) => MessageEditName::MessageUpdate,
        MessageEdit::MessageDelete { .. } => MessageEditName::MessageDelete,
        MessageEdit::ReactionAdd(_) => MessageEditName::ReactionAdd,
        MessageEdit::ReactionRemove(_) => MessageEditName::ReactionRemove,
        MessageEdit::Typing(_) => MessageEditName::Typing,
    }
}

fn put_body(
    alloc: Global,
    members: &mut Map<String, Value>,
    body: &MessageBody,
) -> Result<(), AllocError>
    ensures put { OnOk result
        (HasPut members.old.entries members.new.entries (body_fields body.now)) }
    ensures fits { OnOk result (IdsFit body.now.mentions) }
{
    put_text(alloc, members, "content", &body.content)?;
    put_ids(alloc, members, "mentions", body.mentions.as_slice())?;
    put_number(alloc, members, "embeds", u64::from(body.embeds.get()))?;
    put_number(
        alloc,
        members,
        "attachments",
        u64::from(body.attachments.get()),
    )?;
    put_number(
        alloc,
        members,
        "components",
        u64::from(body.components.get()),
    )?;
    Ok(())
}

fn put_message_create(
    alloc: Global,
    members: &mut Map<String, Value>,
    edit: &MessageCreate,
) -> Result<(), AllocError>
    ensures put { OnOk result
        (HasPut members.old.entries members.new.entries (message_create_fields edit.now)) }
    ensures fits { OnOk result
        (IdFits edit.now.message × IdFits edit.now.channel
        × IdFits edit.now.author × IdsFit edit.now.body.mentions) }
{
    put_id(alloc, members, "message", edit.message)?;
    put_id(alloc, members, "channel", edit.channel)?;
    put_id(alloc, members, "author", edit.author)?;
    put_body(alloc, members, &edit.body)?;
    Ok(())
}

fn put_message_update(
    alloc: Global,
    members: &mut Map<String, Value>,
    edit: &MessageUpdate,
) -> Result<(), AllocError>
    ensures put { OnOk result
        (HasPut members.old.entries members.new.entries (message_update_fields edit.now)) }
    ensures fits { OnOk result (IdFits edit.now.message × IdsFit edit.now.body.mentions) }
{
    put_id(alloc, members, "message", edit.message)?;
    put_body(alloc, members, &edit.body)?;
    Ok(())
}

fn put_reaction(
    alloc: Global,
    members: &mut Map<String, Value>,
    body: &ReactionBody,
) -> Result<(), AllocError>
    ensures put { OnOk result
        (HasPut members.old.entries members.new.entries (reaction_fields body.now)) }
    ensures fits { OnOk result (IdFits body.now.message × IdFits body.now.user) }
{
    put_id(alloc, members, "message", body.message)?;
    put_id(alloc, members, "user", body.user)?;
    put_text(alloc, members, "emoji", &body.emoji)?;
    Ok(())
}

fn put_typing(
    alloc: Global,
    members: &mut Map<String, Value>,
    edit: &Typing,
) -> Result<(), AllocError>
    ensures put { OnOk result
        (HasPut members.old.entries members.new.entries (typing_fields edit.now)) }
    ensures fits { OnOk result
        (IdFits edit.now.channel × IdFits edit.now.user × MomentFits edit.now.at) }
{
    put_id(alloc, members, "channel", edit.channel)?;
    put_id(alloc, members, "user", edit.user)?;
    put_moment(alloc, members, "at", edit.at)?;
    Ok(())
}

/// Puts the fields of an edit into an object.
pub fn put(
    alloc: Global,
    members: &mut Map<String, Value>,
    edit: &MessageEdit,
) -> Result<(), AllocError>
    ensures put { OnOk result
        (HasPut members.old.entries members.new.entries (message_edit_fields edit.now)) }
    ensures fits { OnOk result (MessageEditFits edit.now) }
{
    match edit {
        MessageEdit::MessageCreate(edit) => put_message_create(alloc, members, edit),
        MessageEdit::MessageUpdate(edit) => put_message_update(alloc, members, edit),
        MessageEdit::MessageDelete { message } => put_id(alloc, members, "message", *message),
        MessageEdit::ReactionAdd(body) => put_reaction(alloc, members, body),
        MessageEdit::ReactionRemove(body) => put_reaction(alloc, members, body),
        MessageEdit::Typing(edit) => put_typing(alloc, members, edit),
    }
}
