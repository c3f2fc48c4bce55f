//! Why a worker stops.

use edit_post::SendRefused;
use gate_outside::faults::Fault;
use std::alloc::AllocError;
use worker_core::StepFault;

/// Why a worker has stopped.
#[derive(Clone, Copy, Debug, PartialEq, Eq)]
pub enum WorkFault {
    /// The door failed. Its count of faults rose.
    Door,
    /// A guild's log ended without a seal.
    Quit,
    /// A count of sessions, of chunks, of a session's dispatches or of a pass's requests is at its last
    /// value.
    Spent,
    /// Out of memory.
    Memory,
}

impl From<AllocError> for WorkFault {
    ghost use Rattle.std.specs.Prelude.{◌≡◌};
    ghost use Rattle.worker_run.specs.declared.fault.WorkFault.TheVariants as fault;

    ghost from_gives = { λ _ e. e ≡ fault.Memory };

    fn from(_: AllocError) -> WorkFault {
        WorkFault::Memory
    }
}

impl From<StepFault> for WorkFault {
    ghost use Rattle.std.specs.Prelude.{◌≡◌};
    ghost use Rattle.worker_run.specs.Faults.{by_step};

    ghost from_gives = { λ f e. e ≡ by_step f };

    fn from(fault: StepFault) -> WorkFault {
        match fault {
            StepFault::Spent => WorkFault::Spent,
            StepFault::Memory => WorkFault::Memory,
        }
    }
}

impl From<SendRefused> for WorkFault {
    ghost use Rattle.std.specs.Prelude.{◌≡◌};
    ghost use Rattle.worker_run.specs.Faults.{by_post};

    ghost from_gives = { λ f e. e ≡ by_post f };

    fn from(refused: SendRefused) -> WorkFault {
        match refused {
            SendRefused::Spent => WorkFault::Spent,
            SendRefused::Memory => WorkFault::Memory,
        }
    }
}

// The fault of a door.
impl From<Fault> for WorkFault {
    ghost use Rattle.std.specs.Prelude.{◌≡◌};
    ghost use Rattle.worker_run.specs.Faults.{by_door};

    ghost from_gives = { λ f e. e ≡ by_door f };

    fn from(fault: Fault) -> WorkFault {
        match fault {
            Fault::Failed => WorkFault::Door,
            Fault::Memory => WorkFault::Memory,
        }
    }
}
