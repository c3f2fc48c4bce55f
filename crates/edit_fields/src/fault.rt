//! Why a line is refused.

use json_view::ViewFault;
use std::alloc::AllocError;
use thiserror::Error;

/// Why a line of a step file is refused: the first fault in this order. The line or the file is
/// too long; the line is not JSON; it is not an object; then its fields, `step` first and the
/// others in the order of `docs/STEPS.md`. Each field is read, and its name or its length tested,
/// before the next.
#[derive(Clone, Copy, Debug, PartialEq, Eq, Error)]
pub enum LineFault {
    /// The line is not JSON.
    #[error("a line is a JSON object")]
    NotJson,
    /// No step or edit has this name, or the step may not stand here.
    #[error("no such step may stand here")]
    NoSuchStep,
    /// A field is missing.
    #[error("a field is missing")]
    Missing,
    /// The line is not an object, or a field has the wrong type or is out of its range.
    #[error("a field has the wrong type")]
    WrongType,
    /// The line, the file, a token or the list of guilds is too long.
    #[error("too long")]
    TooLong,
    /// Memory ran out.
    #[error("out of memory")]
    Memory,
}

impl From<AllocError> for LineFault {
    ghost use Rattle.edit_fields.specs.declared.fault.LineFault.TheVariants.{Memory};
    ghost use Rattle.std.specs.Prelude.{◌≡◌};

    ghost from_gives = { λ _ fault. fault ≡ Memory };

    fn from(_: AllocError) -> Self {
        LineFault::Memory
    }
}

/// A bad id is a wrong type.
impl From<ViewFault> for LineFault {
    ghost use Rattle.edit_fields.specs.Fault.{fault_of};
    ghost use Rattle.std.specs.Prelude.{◌≡◌};

    ghost from_gives = { λ view fault. fault ≡ fault_of view };

    fn from(fault: ViewFault) -> Self {
        match fault {
            ViewFault::Missing => LineFault::Missing,
            ViewFault::WrongType | ViewFault::BadId(_) => LineFault::WrongType,
        }
    }
}
