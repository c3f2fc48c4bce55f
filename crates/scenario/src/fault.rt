//! Why a play ends before its source.
use edit_text::LineFault;
use gate_outside::faults::{Failed, Fault};
use std::alloc::{AllocError, AllocFailed};
use thiserror::Error;
use worker_core::StepFault;

/// Why a play ends before its source.
#[derive(Clone, Copy, Debug, PartialEq, Eq, Error)]
pub enum PlayFault {
    /// The source failed.
    #[error("the step file could not be read")]
    Read,
    /// The sink failed.
    #[error("the transcript could not be written")]
    Write,
    /// A line was refused, by its number, from 1.
    #[error("a line of the step file is refused")]
    Line { line: u64, fault: LineFault },
    /// A count of a worker would pass its last value.
    #[error("a count is spent")]
    Spent,
    /// Memory ran out.
    #[error("out of memory")]
    Memory,
}

impl From<AllocError> for PlayFault {
    ghost use Rattle.scenario.specs.declared.fault.PlayFault.TheVariants as play;
    ghost use Rattle.std.specs.Prelude.{◌≡◌};

    ghost from_gives = { λ _ e. e ≡ play.Memory };

    fn from(_: AllocError) -> Self {
        PlayFault::Memory
    }
}

impl From<Failed> for PlayFault {
    ghost use Rattle.scenario.specs.declared.fault.PlayFault.TheVariants as play;
    ghost use Rattle.std.specs.Prelude.{◌≡◌};

    ghost from_gives = { λ _ e. e ≡ play.Read };

    fn from(_: Failed) -> Self {
        PlayFault::Read
    }
}

impl From<Fault> for PlayFault {
    ghost use Rattle.scenario.specs.Played.{fault_of};
    ghost use Rattle.std.specs.Prelude.{◌≡◌};

    ghost from_gives = { λ f e. e ≡ fault_of f };

    fn from(fault: Fault) -> Self {
        match fault {
            Fault::Failed => PlayFault::Write,
            Fault::Memory => PlayFault::Memory,
        }
    }
}

impl From<StepFault> for PlayFault {
    ghost use Rattle.scenario.specs.Played.{step_fault};
    ghost use Rattle.std.specs.Prelude.{◌≡◌};

    ghost from_gives = { λ f e. e ≡ step_fault f };

    fn from(fault: StepFault) -> Self {
        match fault {
            StepFault::Spent => PlayFault::Spent,
            StepFault::Memory => PlayFault::Memory,
        }
    }
}

impl<T: Drop> From<AllocFailed<T>> for PlayFault {
    ghost use Rattle.scenario.specs.declared.fault.PlayFault.TheVariants as play;
    ghost use Rattle.std.specs.Prelude.{◌≡◌};

    ghost from_gives = { λ _ e. e ≡ play.Memory };

    fn from(_: AllocFailed<T>) -> Self {
        PlayFault::Memory
    }
}
