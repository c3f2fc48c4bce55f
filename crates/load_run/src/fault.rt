//! Why a load does not come to its end.

use std::alloc::AllocError;

/// Why a load did not come to its end.
#[derive(Clone, Copy, Debug, PartialEq, Eq)]
pub enum LoadFault {
    /// Out of memory.
    Memory,
    /// A count of a worker, or of the requests of a pass, is at its last value.
    Spent,
    /// A part did not start. The team's count of faults rose, and the other parts were told to stop.
    Start,
    /// The door of a worker failed.
    Door,
    /// The sink failed. Its count of faults rose.
    Write,
    /// A client's link gave this code, after which no client may connect again (Opcodes and Status Codes,
    /// Gateway Close Event Codes).
    Out(u16),
    /// A client's link gave a text that is no payload.
    BadText,
}

impl From<AllocError> for LoadFault {
    ghost use Rattle.std.specs.Prelude.{◌≡◌};
    ghost use Rattle.load_run.specs.declared.fault.LoadFault.TheVariants as fault;

    ghost from_gives = { λ _ e. e ≡ fault.Memory };

    fn from(_: AllocError) -> LoadFault {
        LoadFault::Memory
    }
}
