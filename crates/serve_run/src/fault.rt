//! Why a run of `serve` does not come to its end.

use edit_text::LineFault;
use gate_outside::faults::Fault;
use std::alloc::AllocError;

/// Why a run of `serve` did not come to its end. Of several faults that which stands first here is answered,
/// and of several lines that of the first file.
#[derive(Clone, Copy, Debug, PartialEq, Eq)]
pub enum ServeFault {
    /// Out of memory.
    Memory,
    /// A count of a worker, or of the requests of a pass, is at its last value.
    Spent,
    /// A part did not start. The team's count of faults rose, and the other parts were told to stop.
    Start,
    /// The door of a worker failed. Its count of faults rose.
    Door,
    /// The source of a script failed. Its count of faults rose.
    Read,
    /// A line of a script is refused.
    Line {
        /// The number of the file, from 1.
        file: u8,
        /// The number of the line in its file, from 1.
        line: u64,
        /// What is wrong with it.
        fault: LineFault,
    },
    /// The sink failed. Its count of faults rose.
    Write,
}

impl From<AllocError> for ServeFault {
    ghost use Rattle.std.specs.Prelude.{◌≡◌};
    ghost use Rattle.serve_run.specs.declared.fault.ServeFault.TheVariants as fault;

    ghost from_gives = { λ _ e. e ≡ fault.Memory };

    fn from(_: AllocError) -> ServeFault {
        ServeFault::Memory
    }
}

// The fault of a sink.
impl From<Fault> for ServeFault {
    ghost use Rattle.std.specs.Prelude.{◌≡◌};
    ghost use Rattle.serve_run.specs.Faults.{by_sink};

    ghost from_gives = { λ f e. e ≡ by_sink f };

    fn from(fault: Fault) -> ServeFault {
        match fault {
            Fault::Failed => ServeFault::Write,
            Fault::Memory => ServeFault::Memory,
        }
    }
}
