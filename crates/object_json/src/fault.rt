//! Why an object is not read.

use json_view::ViewFault;
use std::alloc::AllocError;
use thiserror::Error;

/// Why an object is not read.
#[derive(Clone, Copy, Debug, PartialEq, Eq, Error)]
pub enum ReadFault {
    /// A field is missing, of another kind or out of its range.
    #[error("a field is missing or of another kind")]
    BadField,
    /// Memory ran out.
    #[error("out of memory")]
    Memory,
}

impl From<AllocError> for ReadFault {
    ghost use Rattle.object_json.specs.declared.fault.ReadFault.TheVariants.{Memory};
    ghost use Rattle.std.specs.Prelude.{◌≡◌};

    ghost from_gives = { λ _ fault. fault ≡ Memory };

    fn from(_: AllocError) -> Self {
        ReadFault::Memory
    }
}

impl From<ViewFault> for ReadFault {
    ghost use Rattle.object_json.specs.declared.fault.ReadFault.TheVariants.{BadField};
    ghost use Rattle.std.specs.Prelude.{◌≡◌};

    ghost from_gives = { λ _ fault. fault ≡ BadField };

    fn from(_: ViewFault) -> Self {
        ReadFault::BadField
    }
}
