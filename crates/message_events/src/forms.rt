//! In which form an edit of messages is told a viewer. No dispatch is made for it.

ghost use Rattle.std.specs.Prelude.{◌≡◌, ◌==◌, true, option_map};
ghost use Rattle.std.specs.List.{list_any};
ghost use Rattle.guild_model.specs.Heads.{find_head};
ghost use Rattle.message_gate.specs.Redacted.{mentions, reads};
ghost use Rattle.message_gate.specs.Shows.{shows};
ghost use Rattle.message_events.specs.Dispatches.{user_of, mentioned, created, updated};
ghost use Rattle.message_events.specs.Forms.{form_by, form_of, message_form};

use crate::notes::MessageNote;
use dispatch_types::{Viewer, served};
use guild_model::Guild;
use intent_set::Kind;
use message_edit::{MessageBody, MessageCreate, MessageEdit, MessageUpdate};
use message_gate::{reads, shows_by};
use overwrite_eval::{MaskSource, StandingRef};
use snowflake_id::Snowflake;

/// How an edit of messages, reactions or typing is told a viewer. Viewers of one form are told the
/// same.
#[derive(Clone, Copy, PartialEq, Eq, Debug)]
pub enum MessageForm {
    /// It is not shown to the viewer.
    Hidden,
    /// Its message is told without the content (Gateway, Message Content Intent).
    Emptied,
    /// All of it is told.
    Whole,
}

fn names(users: &[Snowflake], user: Snowflake) -> bool
    ensures { result ≡ list_any (λ one. one == user) users.now }
{
    users.iter().any(|one| *one == user)
}

// Whether a message that names these users mentions a user. Users who are not members are not
// mentioned.
#[tactic(auto, using(crate::proofs::Forming::mentions_member))]
fn mentions(guild: &Guild, users: &[Snowflake], user: Snowflake) -> bool
    ensures { result ≡ mentions (mentioned guild.now users.now) user }
{
    names(users, user) && guild.member(user).is_some()
}

// The form of a message of an author that is shown to the viewer.
fn by_content(after: &Guild, viewer: &Viewer, author: Snowflake, body: &MessageBody) -> MessageForm
    ensures { result ≡ form_by true (reads viewer.now author (mentions (mentioned after.now body.now.mentions) viewer.now.user)) }
{
    let is_mentioned = mentions(after, body.mentions.as_slice(), viewer.user);
    if reads(viewer, author, is_mentioned) {
        MessageForm::Whole
    } else {
        MessageForm::Emptied
    }
}

fn created<M: MaskSource>(
    after: &Guild,
    viewer: &Viewer,
    edit: &MessageCreate,
    masks: &M,
) -> MessageForm
    ensures { M.stands_for masks.now after.now viewer.now.user
        → result ≡ form_of after.now viewer.now (option_map (created after.now edit.now) (user_of after.now edit.now.author)) }
{
    let Some(member) = after.member(edit.author) else {
        return MessageForm::Hidden;
    };
    if !shows_by(after, viewer, edit.channel, Kind::MessageCreate, masks) {
        return MessageForm::Hidden;
    }
    by_content(after, viewer, member.user.id, &edit.body)
}

fn updated<M: MaskSource>(
    after: &Guild,
    viewer: &Viewer,
    edit: &MessageUpdate,
    masks: &M,
) -> MessageForm
    ensures { M.stands_for masks.now after.now viewer.now.user
        → result ≡ form_of after.now viewer.now (option_map (updated after.now edit.now) (find_head edit.now.message after.now.messages)) }
{
    let Some(head) = after.message(edit.message) else {
        return MessageForm::Hidden;
    };
    if !shows_by(after, viewer, head.channel, Kind::MessageUpdate, masks) {
        return MessageForm::Hidden;
    }
    by_content(after, viewer, head.author.id, &edit.body)
}

// The form of a dispatch without content.
fn plain<M: MaskSource>(
    after: &Guild,
    viewer: &Viewer,
    channel: Snowflake,
    kind: Kind,
    masks: &M,
) -> MessageForm
    ensures { M.stands_for masks.now after.now viewer.now.user
        → result ≡ form_by (shows after.now viewer.now channel kind) true }
{
    if shows_by(after, viewer, channel, kind, masks) {
        MessageForm::Whole
    } else {
        MessageForm::Hidden
    }
}

/// The form of an edit for a viewer, by what was noted before the edit, the record after it and what
/// answers the masks of the viewer's user (Permissions, VIEW_CHANNEL; Gateway, Message Content Intent).
/// Does not allocate.
pub fn form_by<M: MaskSource>(
    note: &MessageNote,
    after: &Guild,
    viewer: &Viewer,
    edit: &MessageEdit,
    masks: &M,
) -> MessageForm
    ensures { M.stands_for masks.now after.now viewer.now.user → result ≡ message_form after.now viewer.now note.now edit.now }
{
    match edit {
        MessageEdit::MessageCreate(edit) => created(after, viewer, edit, masks),
        MessageEdit::MessageUpdate(edit) => updated(after, viewer, edit, masks),
        MessageEdit::MessageDelete { .. } => match note {
            MessageNote::Stood(channel) => plain(
                after,
                viewer,
                *channel,
                Kind::MessageDelete,
                masks,
            ),
            MessageNote::Nothing => MessageForm::Hidden,
        },
        MessageEdit::ReactionAdd(reaction) => match after.message(reaction.message) {
            Some(head) => plain(after, viewer, head.channel, Kind::MessageReactionAdd, masks),
            None => MessageForm::Hidden,
        },
        MessageEdit::ReactionRemove(reaction) => match after.message(reaction.message) {
            Some(head) => plain(
                after,
                viewer,
                head.channel,
                Kind::MessageReactionRemove,
                masks,
            ),
            None => MessageForm::Hidden,
        },
        MessageEdit::Typing(edit) => plain(after, viewer, edit.channel, Kind::TypingStart, masks),
    }
}

/// The form of an edit for a viewer, by what was noted before the edit and the record after it. Does
/// not allocate.
#[tactic(auto, using(crate::proofs::Unserved::hidden_unserved, message_gate::proofs::ByMember::stands_served))]
pub fn form_for(
    note: &MessageNote,
    after: &Guild,
    viewer: &Viewer,
    edit: &MessageEdit,
) -> MessageForm
    ensures { result ≡ message_form after.now viewer.now note.now edit.now }
{
    match served(after, viewer) {
        Some(me) => form_by(note, after, viewer, edit, &StandingRef::in_guild(after, me)),
        None => MessageForm::Hidden,
    }
}
