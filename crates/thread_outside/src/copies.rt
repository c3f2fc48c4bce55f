//! Copies of what goes over links.
ghost use Rattle.std.specs.Prelude.{◌≡◌, IfOk};

use gate_outside::sending::Sending;
use std::alloc::{AllocError, Global};

/// An equal sending.
pub fn copy_of(alloc: Global, sending: &Sending) -> Result<Sending, AllocError>
    ensures { IfOk result (λ s. s ≡ sending.now) }
{
    match sending {
        Sending::Text(text) => Ok(Sending::Text(text.copy(alloc)?)),
        Sending::Close(code) => Ok(Sending::Close(*code)),
    }
}
