//! What a call on the outside may be refused for.
use std::alloc::{AllocError, AllocFailed};

/// The object failed. Its count of faults rose in the call that answers this.
#[derive(Clone, Copy, Debug, PartialEq, Eq)]
pub struct Failed;

/// Why a call on the outside was refused.
#[derive(Clone, Copy, Debug, PartialEq, Eq)]
pub enum Fault {
    /// The object failed. Its count of faults rose in this call.
    Failed,
    /// Out of memory. The object is as before.
    Memory,
}

impl From<Failed> for Fault {
    ghost use Rattle.gate_outside.specs.declared.faults.Fault.TheVariants as fault;
    ghost use Rattle.std.specs.Prelude.{◌≡◌};

    ghost from_gives = { λ _ e. e ≡ fault.Failed };

    fn from(_: Failed) -> Fault {
        Fault::Failed
    }
}

impl From<AllocError> for Fault {
    ghost use Rattle.gate_outside.specs.declared.faults.Fault.TheVariants as fault;
    ghost use Rattle.std.specs.Prelude.{◌≡◌};

    ghost from_gives = { λ _ e. e ≡ fault.Memory };

    fn from(_: AllocError) -> Fault {
        Fault::Memory
    }
}

impl<T: Drop> From<AllocFailed<T>> for Fault {
    ghost use Rattle.gate_outside.specs.declared.faults.Fault.TheVariants as fault;
    ghost use Rattle.std.specs.Prelude.{◌≡◌};

    ghost from_gives = { λ _ e. e ≡ fault.Memory };

    fn from(_: AllocFailed<T>) -> Fault {
        Fault::Memory
    }
}
