//! What an accepted edit owes to a viewer, where something answers the masks of the viewer's user.

ghost use Rattle.std.specs.Prelude.{◌≡◌, true, Some, IfOk};
ghost use Rattle.guild_model.specs.Record.{Record};
ghost use Rattle.dispatch_types.specs.Serves.{served};
ghost use Rattle.message_events.specs.Dispatches.{message_dispatches};
ghost use Rattle.edit_apply.specs.Edits.{accepts, applied};
ghost use Rattle.edit_events.specs.Due.{due};
ghost use Rattle.edit_events.specs.ByNote.{told_by, own_by, due_between};
ghost use Rattle.edit_events.specs.Was.{was_of};

use crate::due::{Was, events, note, own_events, shown_then, told, will_withhold};
use dispatch_types::{Dispatch, Viewer, served};
use edit_apply::Edit;
use event_views::Recipient;
use guild_model::Guild;
use message_edit::MessageEdit;
use message_events::{MessageNote, add_in_form, form_by};
use overwrite_eval::MaskSource;
use role_member_events::RoleMemberNote;
use std::alloc::{AllocError, Global};
use thread_sync::sights_by;
use whole_events::Before;

/// The same as [`note`], by what answers the masks of the viewer's user on the record before the edit (Permissions,
/// Permission Overwrites): where the edit may change what the viewer sees, no mask is worked out.
///
/// # Errors
/// Out of memory.
pub fn note_by<M: MaskSource>(
    alloc: Global,
    before: &Guild,
    edit: &Edit,
    viewer: &Viewer,
    masks: &M,
) -> Result<Was, AllocError>
    requires { M.stands_for masks.now before.now viewer.now.user }
    ensures { IfOk result (λ was. was ≡ was_of before.now viewer.now edit.now) }
{
    match served(before, viewer) {
        Some(me) => Ok(Was {
            served: true,
            note: whole_events::note_by(alloc, before, me, edit, masks)?,
            shown: shown_then(alloc, before, me, will_withhold(before, edit))?,
        }),
        None => note(alloc, before, edit, viewer),
    }
}

// The list of an edit of messages, for a viewer that is served before and after it.
#[tactic(auto, using(message_events::proofs::Alike::dispatches_in_form))]
fn message_list<M: MaskSource>(
    alloc: Global,
    was: &Was,
    to: &Recipient<'_>,
    note: &MessageNote,
    edit: &MessageEdit,
    masks: &M,
) -> Result<Vec<Dispatch>, AllocError>
    requires { M.stands_for masks.now to.now.after to.now.viewer.user }
    ensures { IfOk result (λ list. list.items
        ≡ told_by was.now.shown to.now.after to.now.me to.now.viewer (message_dispatches to.now.after to.now.viewer note.now edit.now)) }
{
    let form = form_by(note, to.after, to.viewer, edit, masks);
    let mut list = Vec::new(alloc);
    add_in_form(alloc, form, note, to.after, edit, &mut list)?;
    told(alloc, &was.shown, to, list)
}

// Whether the sights of the viewer's channels were noted before an edit, which may change them.
fn notes_sights(note: &Before) -> bool {
    match note {
        Before::Owner(_) => true,
        Before::RoleMember(note) => matches!(note, RoleMemberNote::Sights(_)),
        _ => false,
    }
}

// The list of an edit for a viewer that is served before and after it.
fn own_events_by<M: MaskSource>(
    alloc: Global,
    was: &Was,
    to: &Recipient<'_>,
    edit: &Edit,
    masks: &M,
) -> Result<Vec<Dispatch>, AllocError>
    requires stands { M.stands_for masks.now to.now.after to.now.viewer.user }
    requires served { served to.now.viewer to.now.after ≡ Some to.now.me }
    ensures { IfOk result (λ list. list.items ≡ own_by was.now to.now.after to.now.viewer to.now.me edit.now) }
{
    if let (Before::Message(note), Edit::Message(edit)) = (&was.note, edit) {
        return message_list(alloc, was, to, note, edit, masks);
    }
    if !notes_sights(&was.note) {
        return own_events(alloc, was, to, edit);
    }
    let sights = sights_by(alloc, to.after, to.me, masks)?;
    let to = Recipient::with_sights(to.after, to.viewer, to.me, &sights);
    own_events(alloc, was, &to, edit)
}

fn noted_events_by<M: MaskSource>(
    alloc: Global,
    after: &Guild,
    edit: &Edit,
    was: &Was,
    viewer: &Viewer,
    masks: &M,
) -> Result<Vec<Dispatch>, AllocError>
    requires { M.stands_for masks.now after.now viewer.now.user }
    ensures { IfOk result (λ list. list.items
        ≡ due_between after.now viewer.now was.now (served viewer.now after.now) edit.now) }
{
    match (was.served, served(after, viewer)) {
        (true, Some(me)) => {
            let to = Recipient::new(after, viewer, me);
            own_events_by(alloc, was, &to, edit, masks)
        }
        _ => events(alloc, after, edit, was, viewer),
    }
}

/// The same as [`events`], by what answers the masks of the viewer's user on the record after the edit (Permissions,
/// Permission Overwrites).
///
/// # Errors
/// Out of memory.
pub fn events_by<M: MaskSource>(
    alloc: Global,
    after: &Guild,
    edit: &Edit,
    was: &Was,
    viewer: &Viewer,
    masks: &M,
) -> Result<Vec<Dispatch>, AllocError>
    requires { M.stands_for masks.now after.now viewer.now.user }
    ensures noted { IfOk result (λ list. list.items
        ≡ due_between after.now viewer.now was.now (served viewer.now after.now) edit.now) }
    ensures due { IfOk result (λ list. (before : Record) → was.now ≡ was_of before viewer.now edit.now
        → after.now ≡ applied before edit.now → accepts before edit.now ≡ true
        → list.items ≡ due before edit.now viewer.now) }
{
    let list = noted_events_by(alloc, after, edit, was, viewer, masks)?;
    Ok(list)
}
