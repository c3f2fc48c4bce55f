//! Why a frame or a dispatch fails.

use std::alloc::AllocError;
use thiserror::Error;

/// Why a frame got no answer.
#[derive(Clone, Copy, Debug, PartialEq, Eq, Error)]
pub enum SessionFault {
    /// The worker has made as many sessions as it can count.
    #[error("no further session can be counted")]
    Spent,
    /// Memory ran out.
    #[error("out of memory")]
    Memory,
}

impl From<AllocError> for SessionFault {
    ghost use Rattle.session_core.specs.declared.fault.SessionFault.TheVariants.{Memory};
    ghost use Rattle.std.specs.Prelude.{◌≡◌};

    ghost from_gives = { λ _ fault. fault ≡ Memory };

    fn from(_: AllocError) -> Self {
        SessionFault::Memory
    }
}

/// The session has had as many dispatches as it can count.
#[derive(Clone, Copy, Debug, PartialEq, Eq, Error)]
#[error("no further dispatch of the session can be counted")]
pub struct Spent;
