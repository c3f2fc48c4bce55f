//! Why a client that follows a gateway has stopped.

use std::alloc::AllocError;

/// Why a client that follows a gateway has stopped.
#[derive(Clone, Copy, Debug, PartialEq, Eq)]
pub enum FollowFault {
    /// What it writes to failed.
    Write,
    /// Nine dials and links failed, one after another, without a text between them.
    Dials,
    /// The gateway closed the connection with a code after which no reconnect is allowed (Opcodes and Status
    /// Codes, Gateway Close Event Codes).
    Closed {
        /// That code.
        code: u16,
    },
    /// A text is neither a dispatch nor another payload of the gateway.
    BadText,
    /// Out of memory.
    Memory,
}

impl From<AllocError> for FollowFault {
    ghost use Rattle.std.specs.Prelude.{◌≡◌};
    ghost use Rattle.client_follow.specs.declared.fault.FollowFault.TheVariants.{Memory};

    ghost from_gives = { λ _ e. e ≡ Memory };

    fn from(_: AllocError) -> FollowFault {
        FollowFault::Memory
    }
}
