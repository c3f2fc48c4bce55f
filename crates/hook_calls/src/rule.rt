//! What the hooks answer.

ghost use Rattle.std.specs.Prelude.{◌≡◌};
ghost use Rattle.hook_calls.specs.Rule.{message_id};

use client_hooks::HookRule;
use dispatch_types::Dispatch;

/// The answer is the id of the message that is created, and 0 at every other dispatch.
pub struct MessageIds;

impl HookRule for MessageIds {
    ghost Meets = { λ dispatch value. value ≡ message_id dispatch };
}

/// The id of the message that is created, and 0 of every other dispatch.
pub fn message_id(dispatch: &Dispatch) -> u64
    ensures { result ≡ message_id dispatch.now }
{
    if let Dispatch::MessageCreate(message) = dispatch {
        message.id.0
    } else {
        0
    }
}
