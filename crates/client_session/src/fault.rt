//! Why a client stops.

use std::alloc::AllocError;
use thiserror::Error;

/// Why a client stops.
#[derive(Clone, Copy, Debug, PartialEq, Eq, Error)]
pub enum ClientFault {
    /// The gateway closed the connection with a code after which no reconnect is allowed.
    #[error("the gateway closed the connection for good, with the code {0}")]
    Out(u16),
    /// The text is neither a dispatch nor another payload of the gateway.
    #[error("the text is no payload of a gateway")]
    BadText,
    /// Memory ran out.
    #[error("out of memory")]
    Memory,
}

impl From<AllocError> for ClientFault {
    ghost use Rattle.client_session.specs.declared.fault.ClientFault.TheVariants.{Memory};
    ghost use Rattle.std.specs.Prelude.{◌≡◌};

    ghost from_gives = { λ _ fault. fault ≡ Memory };

    fn from(_: AllocError) -> Self {
        ClientFault::Memory
    }
}
