//! Why a text is no frame.

use json_view::ViewFault;
use std::alloc::AllocError;
use thiserror::Error;

/// Why a text is no frame. Of the first four, the first that applies is the one reported.
#[derive(Clone, Copy, Debug, PartialEq, Eq, Error)]
pub enum FrameFault {
    /// The text has more than 4,096 bytes.
    #[error("a frame has at most 4096 bytes")]
    TooLong,
    /// The text is no JSON.
    #[error("a frame is JSON")]
    NotJson,
    /// The text is no object with a whole number `op`, or `d` has not the shape of that opcode.
    #[error("the frame has a bad shape")]
    BadShape,
    /// No frame of a client has this opcode.
    #[error("the opcode is unknown")]
    UnknownOp,
    /// Memory ran out.
    #[error("out of memory")]
    Memory,
}

impl From<AllocError> for FrameFault {
    ghost use Rattle.gateway_frames.specs.declared.fault.FrameFault.TheVariants.{Memory};
    ghost use Rattle.std.specs.Prelude.{◌≡◌};

    ghost from_gives = { λ _ fault. fault ≡ Memory };

    fn from(_: AllocError) -> Self {
        FrameFault::Memory
    }
}

impl From<ViewFault> for FrameFault {
    ghost use Rattle.gateway_frames.specs.declared.fault.FrameFault.TheVariants.{BadShape};
    ghost use Rattle.std.specs.Prelude.{◌≡◌};

    ghost from_gives = { λ _ fault. fault ≡ BadShape };

    fn from(_: ViewFault) -> Self {
        FrameFault::BadShape
    }
}
