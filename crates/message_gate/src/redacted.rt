//! Whom the content of a message is for (Gateway, Message Content Intent).

ghost use Rattle.std.specs.Prelude.{◌≡◌, []};
ghost use Rattle.message_gate.specs.Redacted.{mentions, reads, is_for, emptied, redacted};

use collections::Text;
use dispatch_types::{MessageObject, Viewer};
use guild_model::{PartCount, User};
use intent_set::Intents;
use snowflake_id::Snowflake;

fn mentions(users: &[User], user: Snowflake) -> bool
    ensures { result ≡ mentions users.now user }
{
    users.iter().any(|mentioned| mentioned.id == user)
}

/// Whether the content of a message of an author is for a viewer, which the message mentions or not:
/// it is where the viewer has MESSAGE_CONTENT, is the author or is mentioned (Gateway, Message Content
/// Intent). Does not allocate.
pub fn reads(viewer: &Viewer, author: Snowflake, is_mentioned: bool) -> bool
    ensures { result ≡ reads viewer.now author is_mentioned }
{
    viewer.intents.has(Intents::MESSAGE_CONTENT) || author == viewer.user || is_mentioned
}

// Whether a viewer is told what a message says.
fn is_for(message: &MessageObject, viewer: &Viewer) -> bool
    ensures { result ≡ is_for message.now viewer.now }
{
    let is_mentioned = mentions(message.mentions.as_slice(), viewer.user);
    reads(viewer, message.author.id, is_mentioned)
}

fn emptied(mut message: MessageObject) -> MessageObject
    ensures { result ≡ emptied message }
{
    message.content.clear();
    message.embeds = PartCount::NONE;
    message.attachments = PartCount::NONE;
    message.components = PartCount::NONE;
    message
}

/// The message as a viewer is sent it: its content, embeds, attachments and components are empty,
/// unless the viewer has MESSAGE_CONTENT, is the author or is mentioned (Gateway, Message Content
/// Intent). Does not allocate.
pub fn redact(message: MessageObject, viewer: &Viewer) -> MessageObject
    ensures { result ≡ redacted message viewer.now }
{
    if is_for(&message, viewer) {
        message
    } else {
        emptied(message)
    }
}
