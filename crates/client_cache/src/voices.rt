//! VOICE_STATE_UPDATE.

ghost use Rattle.std.specs.Prelude.{◌≡◌, OnOk, OnErr};
ghost use Rattle.dispatch_types.specs.Objects.{voice_of};
ghost use Rattle.dispatch_types.specs.Fold.{set_voice};

use crate::objects::voice_of;
use dispatch_types::{OpenView, VoiceObject};
use std::alloc::AllocError;

/// Adds or replaces a voice state, or removes one that has no channel (Gateway Events, Voice State
/// Update).
pub(crate) fn set_voice(view: &mut OpenView, object: &VoiceObject) -> Result<(), AllocError>
    ensures ok { OnOk result (view.new ≡ set_voice object.now.user (voice_of object.now) view.old) }
    ensures err { OnErr result (view.new ≡ view.old) }
{
    match voice_of(object) {
        Some(voice) => view.voices.put(voice),
        None => {
            view.voices.remove(object.user.0);
            Ok(())
        }
    }
}
