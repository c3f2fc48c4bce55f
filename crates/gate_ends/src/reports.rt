//! What the two actors of a run have reported.

ghost use Rattle.std.specs.Prelude.{◌≡◌, Ok, IfOk};
ghost use Rattle.gate_parts.specs.declared.ending.Ending.TheVariants.{Ran};
ghost use Rattle.gate_ends.specs.Done.{AreReports};

use crate::results::result_of;
use gate_parts::ActorDone;
use guild_actor::ActReport;
use std::alloc::AllocError;
use std::sync::Wait;

fn report_of<R: Wait + Drop>(done: ActorDone<R>) -> Result<ActReport<R>, AllocError>
    ensures { IfOk result (λ report. done.ending ≡ Ran (Ok report)) }
{
    result_of(done.into_ending())
}

/// The reports of the two last actors.
///
/// # Errors
/// There are not two actors, or one of them has stopped or ended by a fault.
pub fn reports_of<R: Wait + Drop>(
    mut actors: Vec<ActorDone<R>>,
) -> Result<(ActReport<R>, ActReport<R>), AllocError>
    ensures { IfOk result (λ reports. AreReports actors.items reports.0 reports.1) }
{
    let (Some(second), Some(first)) = (actors.pop(), actors.pop()) else {
        return Err(AllocError);
    };
    drop(actors);
    let first = report_of(first)?;
    let second = report_of(second)?;
    Ok((first, second))
}
