//! Why a script ends before its file.
use edit_post::SendRefused;
use edit_text::LineFault;
use gate_outside::faults::Fault;
use std::alloc::AllocFailed;
use thiserror::Error;

/// Why a script ends before its file.
#[derive(Clone, Copy, Debug, PartialEq, Eq, Error)]
pub enum ScriptFault {
    /// The source failed.
    #[error("the script could not be read")]
    Read,
    /// A line was refused, by its number, from 1.
    #[error("a line of the script is refused")]
    Line { line: u64, fault: LineFault },
    /// A pass has sent as many requests as it can number.
    #[error("no further request of the script can be numbered")]
    Spent,
    /// Memory ran out.
    #[error("out of memory")]
    Memory,
}

impl From<Fault> for ScriptFault {
    ghost use Rattle.file_script.specs.Faults.{fault_of};
    ghost use Rattle.std.specs.Prelude.{◌≡◌};

    ghost from_gives = { λ f e. e ≡ fault_of f };

    fn from(fault: Fault) -> Self {
        match fault {
            Fault::Failed => ScriptFault::Read,
            Fault::Memory => ScriptFault::Memory,
        }
    }
}

impl From<SendRefused> for ScriptFault {
    ghost use Rattle.file_script.specs.Faults.{refusal_of};
    ghost use Rattle.std.specs.Prelude.{◌≡◌};

    ghost from_gives = { λ f e. e ≡ refusal_of f };

    fn from(refused: SendRefused) -> Self {
        match refused {
            SendRefused::Spent => ScriptFault::Spent,
            SendRefused::Memory => ScriptFault::Memory,
        }
    }
}

impl<T: Drop> From<AllocFailed<T>> for ScriptFault {
    ghost use Rattle.file_script.specs.declared.fault.ScriptFault.TheVariants as script;
    ghost use Rattle.std.specs.Prelude.{◌≡◌};

    ghost from_gives = { λ _ e. e ≡ script.Memory };

    fn from(_: AllocFailed<T>) -> Self {
        ScriptFault::Memory
    }
}
