//! The dispatch of each edit of messages, reactions and typing, in each form.

ghost use Rattle.std.specs.Prelude.{◌≡◌, ◌++◌, Bool, IfOk, OnOk, option_map};
ghost use Rattle.std.specs.Option.{option_to_list};
ghost use Rattle.guild_model.specs.Heads.{find_head};
ghost use Rattle.message_events.specs.Dispatches.{created, updated, deleted, reacted, unreacted, typed, user_of, message_whole, message_dispatches};
ghost use Rattle.message_events.specs.Forms.{told_with, told_by, in_form};

use crate::forms::{MessageForm, form_for};
use crate::notes::MessageNote;
use crate::objects::{Written, message_of, reaction_of, user_of};
use collections::Duplicate;
use dispatch_types::{Dispatch, MessageDelete, TypingStart};
use event_views::Recipient;
use guild_model::Guild;
use message_edit::{MessageCreate, MessageEdit, MessageUpdate, ReactionBody, Typing};
use snowflake_id::Snowflake;
use std::alloc::{AllocError, Global};

fn created(
    alloc: Global,
    with_content: bool,
    after: &Guild,
    edit: &MessageCreate,
) -> Result<Option<Dispatch>, AllocError>
    ensures { IfOk result (λ told. told
        ≡ told_by with_content (option_map (created after.now edit.now) (user_of after.now edit.now.author))) }
{
    let Some(author) = user_of(alloc, after, edit.author)? else {
        return Ok(None);
    };
    let written = Written {
        channel: edit.channel,
        id: edit.message,
        author,
    };
    let message = message_of(alloc, after, with_content, written, &edit.body)?;
    Ok(Some(Dispatch::MessageCreate(message)))
}

fn updated(
    alloc: Global,
    with_content: bool,
    after: &Guild,
    edit: &MessageUpdate,
) -> Result<Option<Dispatch>, AllocError>
    ensures { IfOk result (λ told. told
        ≡ told_by with_content (option_map (updated after.now edit.now) (find_head edit.now.message after.now.messages))) }
{
    let Some(head) = after.message(edit.message) else {
        return Ok(None);
    };
    let written = Written {
        channel: head.channel,
        id: head.id,
        author: head.author.duplicate(alloc)?,
    };
    let message = message_of(alloc, after, with_content, written, &edit.body)?;
    Ok(Some(Dispatch::MessageUpdate(message)))
}

fn deleted(note: &MessageNote, guild: Snowflake, message: Snowflake) -> Option<Dispatch>
    ensures { result ≡ option_map (λ about. about.dispatch) (deleted guild note.now message) }
{
    match note {
        MessageNote::Stood(channel) => Some(Dispatch::MessageDelete(MessageDelete {
            guild,
            channel: *channel,
            id: message,
        })),
        MessageNote::Nothing => None,
    }
}

fn reacted(
    alloc: Global,
    after: &Guild,
    reaction: &ReactionBody,
) -> Result<Option<Dispatch>, AllocError>
    ensures { IfOk result (λ told. (with_content : Bool) → told
        ≡ told_by with_content (option_map (reacted after.now reaction.now) (find_head reaction.now.message after.now.messages))) }
{
    match after.message(reaction.message) {
        Some(head) => {
            let sent = reaction_of(alloc, after, reaction, head)?;
            Ok(Some(Dispatch::MessageReactionAdd(sent)))
        }
        None => Ok(None),
    }
}

fn unreacted(
    alloc: Global,
    after: &Guild,
    reaction: &ReactionBody,
) -> Result<Option<Dispatch>, AllocError>
    ensures { IfOk result (λ told. (with_content : Bool) → told
        ≡ told_by with_content (option_map (unreacted after.now reaction.now) (find_head reaction.now.message after.now.messages))) }
{
    match after.message(reaction.message) {
        Some(head) => {
            let sent = reaction_of(alloc, after, reaction, head)?;
            Ok(Some(Dispatch::MessageReactionRemove(sent)))
        }
        None => Ok(None),
    }
}

fn typed(guild: Snowflake, edit: &Typing) -> Dispatch
    ensures { result ≡ (typed guild edit.now).dispatch }
{
    Dispatch::TypingStart(TypingStart {
        guild,
        channel: edit.channel,
        user: edit.user,
        seconds: edit.at.millis() / 1000,
    })
}

// The dispatch of an edit, with the content of its message or without.
fn told(
    alloc: Global,
    with_content: bool,
    note: &MessageNote,
    after: &Guild,
    edit: &MessageEdit,
) -> Result<Option<Dispatch>, AllocError>
    ensures { IfOk result (λ told. told ≡ told_by with_content (message_whole after.now note.now edit.now)) }
{
    match edit {
        MessageEdit::MessageCreate(edit) => created(alloc, with_content, after, edit),
        MessageEdit::MessageUpdate(edit) => updated(alloc, with_content, after, edit),
        MessageEdit::MessageDelete { message } => Ok(deleted(note, after.id, *message)),
        MessageEdit::ReactionAdd(reaction) => reacted(alloc, after, reaction),
        MessageEdit::ReactionRemove(reaction) => unreacted(alloc, after, reaction),
        MessageEdit::Typing(edit) => Ok(Some(typed(after.id, edit))),
    }
}

/// The dispatch of an edit for viewers of a form, by what was noted before the edit and the record
/// after it. `None` for the form [`MessageForm::Hidden`].
pub fn in_form(
    alloc: Global,
    form: MessageForm,
    note: &MessageNote,
    after: &Guild,
    edit: &MessageEdit,
) -> Result<Option<Dispatch>, AllocError>
    ensures { IfOk result (λ told. told ≡ in_form form (message_whole after.now note.now edit.now)) }
{
    match form {
        MessageForm::Hidden => Ok(None),
        MessageForm::Emptied => told(alloc, false, note, after, edit),
        MessageForm::Whole => told(alloc, true, note, after, edit),
    }
}

/// Adds the dispatch of an edit for viewers of a form, by what was noted before the edit and the record after it.
/// Nothing is added for the form [`MessageForm::Hidden`].
///
/// # Errors
/// Out of memory.
pub fn add_in_form(
    alloc: Global,
    form: MessageForm,
    note: &MessageNote,
    after: &Guild,
    edit: &MessageEdit,
    list: &mut Vec<Dispatch>,
) -> Result<(), AllocError>
    ensures { OnOk result (list.new.items
        ≡ list.old.items ++ option_to_list (in_form form (message_whole after.now note.now edit.now))) }
{
    match in_form(alloc, form, note, after, edit)? {
        Some(dispatch) => {
            list.push(dispatch)?;
            Ok(())
        }
        None => Ok(()),
    }
}

/// Adds the dispatch of an edit if it is shown to the viewer, by what was noted before the edit and
/// the record after it.
#[tactic(auto, using(crate::proofs::Alike::dispatches_in_form))]
pub fn add_dispatches(
    alloc: Global,
    note: &MessageNote,
    to: &Recipient<'_>,
    edit: &MessageEdit,
    list: &mut Vec<Dispatch>,
) -> Result<(), AllocError>
    ensures { OnOk result (list.new.items
        ≡ list.old.items ++ message_dispatches to.now.after to.now.viewer note.now edit.now) }
{
    let form = form_for(note, to.after, to.viewer, edit);
    add_in_form(alloc, form, note, to.after, edit, list)
}
