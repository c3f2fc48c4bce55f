//! Why a text is not read as a dispatch.

use object_json::fault::ReadFault;
use std::alloc::AllocError;
use thiserror::Error;

/// Why a text is not read as a dispatch. Of the first four, the first that applies is the one
/// reported.
#[derive(Clone, Copy, Debug, PartialEq, Eq, Error)]
pub enum DispatchFault {
    /// The text is no JSON.
    #[error("the text is no JSON")]
    NotJson,
    /// The JSON is no object with the opcode 0, a whole number and a name.
    #[error("the text is no dispatch")]
    NotDispatch,
    /// No dispatch has the name.
    #[error("no dispatch has this name")]
    UnknownName,
    /// The payload does not have this dispatch's format.
    #[error("a field is missing or of another kind")]
    BadField,
    /// Memory ran out.
    #[error("out of memory")]
    Memory,
}

impl From<AllocError> for DispatchFault {
    ghost use Rattle.event_json.specs.declared.fault.DispatchFault.TheVariants.{Memory};
    ghost use Rattle.std.specs.Prelude.{◌≡◌};

    ghost from_gives = { λ _ fault. fault ≡ Memory };

    fn from(_: AllocError) -> Self {
        DispatchFault::Memory
    }
}

impl From<ReadFault> for DispatchFault {
    ghost use Rattle.event_json.specs.Read.{dispatch_fault};
    ghost use Rattle.std.specs.Prelude.{◌≡◌};

    ghost from_gives = { λ read fault. fault ≡ dispatch_fault read };

    fn from(read: ReadFault) -> Self {
        match read {
            ReadFault::BadField => DispatchFault::BadField,
            ReadFault::Memory => DispatchFault::Memory,
        }
    }
}
