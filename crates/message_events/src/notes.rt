//! What has to be known of the record before an edit of messages.

ghost use Rattle.std.specs.Prelude.{◌≡◌};
ghost use Rattle.guild_model.specs.Heads.{find_head};
ghost use Rattle.message_events.specs.Notes.{note_of, message_note};

use guild_model::Guild;
use message_edit::MessageEdit;
use snowflake_id::Snowflake;

/// What has to be known of a message before an edit of it.
#[derive(Clone, Copy, PartialEq, Eq, Debug)]
pub enum MessageNote {
    /// Nothing: the record after the edit says all.
    Nothing,
    /// The message that is deleted stood in this channel or thread.
    Stood(Snowflake),
}

fn stood(before: &Guild, message: Snowflake) -> MessageNote
    ensures { result ≡ note_of (find_head message before.now.messages) }
{
    match before.message(message) {
        Some(head) => MessageNote::Stood(head.channel),
        None => MessageNote::Nothing,
    }
}

/// Notes what [`add_dispatches`](crate::add_dispatches) has to know of the record before an edit.
pub fn note(before: &Guild, edit: &MessageEdit) -> MessageNote
    ensures { result ≡ message_note before.now edit.now }
{
    match edit {
        MessageEdit::MessageDelete { message } => stood(before, *message),
        MessageEdit::MessageCreate(_) => MessageNote::Nothing,
        MessageEdit::MessageUpdate(_) => MessageNote::Nothing,
        MessageEdit::ReactionAdd(_) => MessageNote::Nothing,
        MessageEdit::ReactionRemove(_) => MessageNote::Nothing,
        MessageEdit::Typing(_) => MessageNote::Nothing,
    }
}
