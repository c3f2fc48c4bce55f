//! By which fault the parts of `serve` have ended.

ghost use Rattle.std.specs.Prelude.{◌≡◌, ◌≤◌, length, map};
ghost use Rattle.std.specs.List.{fold};
ghost use Rattle.serve_run.specs.Faults.{actor_fault, script_fault, worker_fault, actor_faults, script_faults, worker_faults, sooner, rank, start_fault, first_fault};

use crate::ends::FileEnd;
use crate::fault::ServeFault;
use file_script::ScriptFault;
use gate_ends::WorkerEnd;
use gate_parts::{ActorDone, Ending};
use guild_actor::ActReport;
use std::alloc::AllocError;
use std::sync::Wait;
use worker_run::{WorkFault, WorkReport};

fn actor_fault<R: Wait + Drop>(
    ending: &Ending<Result<ActReport<R>, AllocError>>,
) -> Option<ServeFault>
    ensures { result ≡ actor_fault ending.now }
{
    match ending {
        Ending::Ran(Err(_)) => Some(ServeFault::Memory),
        Ending::Ran(Ok(_)) => None,
        Ending::Stopped => None,
    }
}

// The fault of the script of the file with this number, from 1.
fn script_fault(file: u8, ending: &Ending<Result<(), ScriptFault>>) -> Option<ServeFault>
    ensures { result ≡ script_fault file ending.now }
{
    match ending {
        Ending::Ran(Err(ScriptFault::Read)) => Some(ServeFault::Read),
        Ending::Ran(Err(ScriptFault::Line { line, fault })) => Some(ServeFault::Line {
            file,
            line: *line,
            fault: *fault,
        }),
        Ending::Ran(Err(ScriptFault::Spent)) => Some(ServeFault::Spent),
        Ending::Ran(Err(ScriptFault::Memory)) => Some(ServeFault::Memory),
        Ending::Ran(Ok(())) => None,
        Ending::Stopped => None,
    }
}

// A log ends without a seal only if memory ran out for its actor.
fn worker_fault(ending: &Ending<Result<WorkReport, WorkFault>>) -> Option<ServeFault>
    ensures { result ≡ worker_fault ending.now }
{
    match ending {
        Ending::Ran(Err(WorkFault::Door)) => Some(ServeFault::Door),
        Ending::Ran(Err(WorkFault::Spent)) => Some(ServeFault::Spent),
        Ending::Ran(Err(WorkFault::Quit)) => Some(ServeFault::Memory),
        Ending::Ran(Err(WorkFault::Memory)) => Some(ServeFault::Memory),
        Ending::Ran(Ok(_)) => None,
        Ending::Stopped => None,
    }
}

// The place of a fault in the order in which a run answers them.
fn rank(fault: ServeFault) -> u8
    ensures { result ≡ rank fault }
{
    match fault {
        ServeFault::Memory => 0,
        ServeFault::Spent => 1,
        ServeFault::Start => 2,
        ServeFault::Door => 3,
        ServeFault::Read => 4,
        ServeFault::Line { .. } => 5,
        ServeFault::Write => 6,
    }
}

/// Which of two faults a run answers.
pub fn sooner(one: Option<ServeFault>, other: Option<ServeFault>) -> Option<ServeFault>
    ensures { result ≡ sooner one other }
{
    match (one, other) {
        (None, other) => other,
        (Some(one), None) => Some(one),
        (Some(one), Some(other)) => Some(if rank(other) < rank(one) { other } else { one }),
    }
}

fn start_fault(started: bool) -> Option<ServeFault>
    ensures { result ≡ start_fault started }
{
    if started {
        None
    } else {
        Some(ServeFault::Start)
    }
}

// Which of this fault and those of the actors a run answers.
fn by_actors<R: Wait + Drop>(
    mut first: Option<ServeFault>,
    actors: &[ActorDone<R>],
) -> Option<ServeFault>
    ensures { result ≡ fold sooner first (actor_faults actors.now) }
{
    for actor in actors {
        first = sooner(first, actor_fault(&actor.ending));
    }
    first
}

// Which of this fault and those of the scripts a run answers.
fn by_scripts(mut first: Option<ServeFault>, scripts: &[FileEnd]) -> Option<ServeFault>
    requires { length scripts.now ≤ 255 }
    ensures { result ≡ fold sooner first (script_faults 1 scripts.now) }
{
    let mut file = 0;
    for script in scripts {
        file += 1;
        first = sooner(first, script_fault(file, &script.ending));
    }
    first
}

// Which of this fault and those of the workers a run answers.
fn by_workers(mut first: Option<ServeFault>, workers: &[WorkerEnd]) -> Option<ServeFault>
    ensures { result ≡ fold sooner first (worker_faults workers.now) }
{
    for worker in workers {
        first = sooner(first, worker_fault(&worker.ending));
    }
    first
}

/// The fault that a run answers whose parts have ended so: of several that which comes first in the order of
/// `ServeFault`. A part that was not started counts as `Start`. It does not allocate.
pub fn first_fault<R: Wait + Drop>(
    started: bool,
    actors: &[ActorDone<R>],
    scripts: &[FileEnd],
    workers: &[WorkerEnd],
) -> Option<ServeFault>
    requires { length scripts.now ≤ 255 }
    ensures { result ≡ first_fault started actors.now scripts.now workers.now }
{
    let first = by_actors(start_fault(started), actors);
    by_workers(by_scripts(first, scripts), workers)
}
