//! Why a client stops.

use client_session::ClientFault;
use std::alloc::AllocError;

/// Why a client has stopped.
#[derive(Clone, Copy, Debug, PartialEq, Eq)]
pub enum DriveFault {
    /// Nine dials and links failed, one after another, without a text between them.
    Dials,
    /// The gateway closed the connection with a code after which no reconnect is allowed.
    Out(u16),
    /// A text is neither a dispatch nor another payload of the gateway.
    BadText,
    /// Out of memory.
    Memory,
}

impl From<AllocError> for DriveFault {
    ghost use Rattle.std.specs.Prelude.{◌≡◌};
    ghost use Rattle.client_run.specs.declared.fault.DriveFault.TheVariants as fault;

    ghost from_gives = { λ _ e. e ≡ fault.Memory };

    fn from(_: AllocError) -> DriveFault {
        DriveFault::Memory
    }
}

impl From<ClientFault> for DriveFault {
    ghost use Rattle.std.specs.Prelude.{◌≡◌};
    ghost use Rattle.client_run.specs.Turns.{by_client};

    ghost from_gives = { λ f e. e ≡ by_client f };

    fn from(fault: ClientFault) -> DriveFault {
        match fault {
            ClientFault::Out(code) => DriveFault::Out(code),
            ClientFault::BadText => DriveFault::BadText,
            ClientFault::Memory => DriveFault::Memory,
        }
    }
}
