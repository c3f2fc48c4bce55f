//! PRESENCE_UPDATE.

ghost use Rattle.std.specs.Prelude.{◌≡◌, OnOk, OnErr};
ghost use Rattle.dispatch_types.specs.Objects.{presence_of};
ghost use Rattle.dispatch_types.specs.Fold.{set_presence};

use crate::objects::presence_of;
use dispatch_types::{OpenView, PresenceObject};
use std::alloc::AllocError;

/// Adds or replaces a presence, or removes that of a user who is offline (Gateway Events, Presence
/// Update).
pub(crate) fn set_presence(view: &mut OpenView, object: &PresenceObject) -> Result<(), AllocError>
    ensures ok { OnOk result (view.new
        ≡ set_presence object.now.user (presence_of object.now) view.old) }
    ensures err { OnErr result (view.new ≡ view.old) }
{
    match presence_of(object) {
        Some(presence) => view.presences.put(presence),
        None => {
            view.presences.remove(object.user.0);
            Ok(())
        }
    }
}
