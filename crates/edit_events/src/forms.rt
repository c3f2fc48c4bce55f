//! How an edit of messages is told a viewer, without the dispatch being made.

ghost use Rattle.std.specs.Prelude.{◌≡◌};
ghost use Rattle.dispatch_types.specs.Serves.{served};
ghost use Rattle.edit_events.specs.Forms.{form_between};

use crate::due::Was;
use dispatch_types::{Viewer, served};
use edit_apply::Edit;
use guild_model::Guild;
use message_events::MessageForm;
use overwrite_eval::{MaskSource, StandingRef};
use whole_events::Before;

/// How an edit of messages, reactions or typing is told a viewer that is served before and after it, by what
/// answers the masks of the viewer's user (Gateway Events, Receive Events; Permissions, VIEW_CHANNEL);
/// `None` exactly if it is another edit or the viewer is not. Does not allocate.
pub fn form_by<M: MaskSource>(
    after: &Guild,
    edit: &Edit,
    was: &Was,
    viewer: &Viewer,
    masks: &M,
) -> Option<MessageForm>
    ensures { M.stands_for masks.now after.now viewer.now.user
        → result ≡ form_between after.now viewer.now was.now (served viewer.now after.now) edit.now }
{
    let (Edit::Message(edit), Before::Message(note)) = (edit, &was.note) else {
        return None;
    };
    match (was.served, served(after, viewer)) {
        (true, Some(_)) => Some(message_events::form_by(note, after, viewer, edit, masks)),
        _ => None,
    }
}

/// How an edit of messages, reactions or typing is told a viewer that is served before and after it;
/// `None` exactly if it is another edit or the viewer is not. Does not allocate.
#[tactic(auto, using(crate::proofs::SameForms::formless, message_gate::proofs::ByMember::stands_served))]
pub fn form_for(after: &Guild, edit: &Edit, was: &Was, viewer: &Viewer) -> Option<MessageForm>
    ensures { result ≡ form_between after.now viewer.now was.now (served viewer.now after.now) edit.now }
{
    let Edit::Message(_) = edit else {
        return None;
    };
    match served(after, viewer) {
        Some(me) => form_by(after, edit, was, viewer, &StandingRef::in_guild(after, me)),
        None => None,
    }
}
