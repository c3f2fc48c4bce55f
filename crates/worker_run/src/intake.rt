//! What a worker is given is noted, and goes to it.

ghost use Rattle.std.specs.Prelude.{[], ◌∷◌, MatchResult};
ghost use Rattle.world_law.specs.Inputs.{Input as ModelInput};
ghost use Rattle.worker_core.specs.Outputs.{IsGiven};
ghost use Rattle.worker_run.specs.Histories.{Took};
ghost use Rattle.worker_run.specs.Workers.{FollowsAll};
ghost use Rattle.worker_run.specs.Notes.{AreNoted};
ghost use Rattle.worker_run.specs.Stopping.{TakesNot};

use crate::fault::WorkFault;
use gate_outside::notes::Notes;
use worker_core::{Input, Output, Worker};

/// Notes an input and gives it to the worker, and gives what the worker owes for it.
pub fn take_in<J: Notes<Input>>(
    worker: &mut Worker,
    notes: &mut J,
    input: Input,
) -> Result<Vec<Output>, WorkFault>
    ensures { (i : ModelInput) → IsGiven input i → MatchResult result
        (λ out. FollowsAll worker.old (Took i ∷ []) out.items worker.new × AreNoted (i ∷ []) (J.noted notes.old) (J.noted notes.new))
        (TakesNot i worker.old (J.noted notes.old) (J.noted notes.new)) }
{
    if notes.note(&input).is_err() {
        drop(input);
        return Err(WorkFault::Memory);
    }
    Ok(worker.step(input)?)
}
