//! Why a lift ends before its source.
use edit_text::LineFault;
use gate_outside::faults::Fault;
use std::alloc::AllocError;
use thiserror::Error;

/// Why a lift ends before its source.
#[derive(Clone, Copy, Debug, PartialEq, Eq, Error)]
pub enum LiftFault {
    /// The source failed.
    #[error("the step file could not be read")]
    Read,
    /// The sink failed.
    #[error("the lifted file could not be written")]
    Write,
    /// A line was refused, by its number, from 1. `TooLong` also says that its lifted text is.
    #[error("a line of the step file is refused")]
    Line { line: u64, fault: LineFault },
    /// Memory ran out.
    #[error("out of memory")]
    Memory,
}

impl From<AllocError> for LiftFault {
    ghost use Rattle.file_lift.specs.declared.fault.LiftFault.TheVariants as lift;
    ghost use Rattle.std.specs.Prelude.{◌≡◌};

    ghost from_gives = { λ _ e. e ≡ lift.Memory };

    fn from(_: AllocError) -> Self {
        LiftFault::Memory
    }
}

impl From<Fault> for LiftFault {
    ghost use Rattle.file_lift.specs.Lifting.{write_fault};
    ghost use Rattle.std.specs.Prelude.{◌≡◌};

    ghost from_gives = { λ f e. e ≡ write_fault f };

    fn from(fault: Fault) -> Self {
        match fault {
            Fault::Failed => LiftFault::Write,
            Fault::Memory => LiftFault::Memory,
        }
    }
}
