//! What a part gave that has run to its end.

ghost use Rattle.std.specs.Prelude.{◌≡◌, Ok, IfOk};
ghost use Rattle.gate_parts.specs.declared.ending.Ending.TheVariants.{Ran};

use gate_parts::Ending;
use std::alloc::AllocError;

/// What a part gave that has run to its end. Who asks has answered the faults of parts before: then no part has
/// stopped.
///
/// # Errors
/// The part has stopped, or it ended by a fault.
pub fn result_of<T: Drop, E: Drop>(ending: Ending<Result<T, E>>) -> Result<T, AllocError>
    ensures { IfOk result (λ value. ending ≡ Ran (Ok value)) }
{
    match ending {
        Ending::Ran(Ok(value)) => Ok(value),
        Ending::Ran(Err(fault)) => {
            drop(fault);
            Err(AllocError)
        }
        Ending::Stopped => Err(AllocError),
    }
}
