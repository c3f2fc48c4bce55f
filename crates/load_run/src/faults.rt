//! By which fault the parts of a load have ended.

ghost use Rattle.std.specs.Prelude.{◌≡◌, Ok, Err};
ghost use Rattle.load_run.specs.Faults.{actor_fault, script_fault, worker_fault, client_fault, fault_of, sooner, rank, start_fault, first_fault};

use crate::fault::LoadFault;
use client_run::{DriveFault, Driven};
use edit_post::SendRefused;
use gate_parts::Ending;
use guild_actor::ActReport;
use load_parts::LoadDone;
use std::alloc::AllocError;
use std::sync::Wait;
use worker_run::{WorkFault, WorkReport};

fn actor_fault<R: Wait + Drop>(
    ending: &Ending<Result<ActReport<R>, AllocError>>,
) -> Option<LoadFault>
    ensures { result ≡ actor_fault ending.now }
{
    match ending {
        Ending::Ran(Err(_)) => Some(LoadFault::Memory),
        Ending::Ran(Ok(_)) => None,
        Ending::Stopped => None,
    }
}

fn script_fault(ending: &Ending<Result<(), SendRefused>>) -> Option<LoadFault>
    ensures { result ≡ script_fault ending.now }
{
    match ending {
        Ending::Ran(Err(SendRefused::Spent)) => Some(LoadFault::Spent),
        Ending::Ran(Err(SendRefused::Memory)) => Some(LoadFault::Memory),
        Ending::Ran(Ok(())) => None,
        Ending::Stopped => None,
    }
}

// A log ends without a seal only if memory ran out for its actor.
fn worker_fault(ending: &Ending<Result<WorkReport, WorkFault>>) -> Option<LoadFault>
    ensures { result ≡ worker_fault ending.now }
{
    match ending {
        Ending::Ran(Err(WorkFault::Door)) => Some(LoadFault::Door),
        Ending::Ran(Err(WorkFault::Spent)) => Some(LoadFault::Spent),
        Ending::Ran(Err(WorkFault::Quit)) => Some(LoadFault::Memory),
        Ending::Ran(Err(WorkFault::Memory)) => Some(LoadFault::Memory),
        Ending::Ran(Ok(_)) => None,
        Ending::Stopped => None,
    }
}

// Links that fail before they give a text are those of a worker for which memory ran out.
fn client_fault(driven: Result<Driven, DriveFault>) -> Option<LoadFault>
    ensures { result ≡ client_fault driven }
{
    match driven {
        Ok(_) => None,
        Err(DriveFault::Out(code)) => Some(LoadFault::Out(code)),
        Err(DriveFault::BadText) => Some(LoadFault::BadText),
        Err(DriveFault::Dials) => Some(LoadFault::Memory),
        Err(DriveFault::Memory) => Some(LoadFault::Memory),
    }
}

// The fault by which a part has ended.
fn fault_of<C, R: Wait + Copy + Drop>(done: &LoadDone<C, R>) -> Option<LoadFault>
    ensures { result ≡ fault_of done.now }
{
    match done {
        LoadDone::Actor(done) => actor_fault(&done.ending),
        LoadDone::Script(done) => script_fault(&done.ending),
        LoadDone::Worker(done) => worker_fault(&done.ending),
        LoadDone::Client(done) => client_fault(done.ended.driven),
    }
}

// The place of a fault in the order in which a load answers them.
fn rank(fault: LoadFault) -> u8
    ensures { result ≡ rank fault }
{
    match fault {
        LoadFault::Memory => 0,
        LoadFault::Spent => 1,
        LoadFault::Start => 2,
        LoadFault::Door => 3,
        LoadFault::Write => 4,
        LoadFault::Out(_) => 5,
        LoadFault::BadText => 6,
    }
}

// Which of two faults a load answers.
fn sooner(one: Option<LoadFault>, other: Option<LoadFault>) -> Option<LoadFault>
    ensures { result ≡ sooner one other }
{
    match (one, other) {
        (None, other) => other,
        (Some(one), None) => Some(one),
        (Some(one), Some(other)) => Some(if rank(other) < rank(one) { other } else { one }),
    }
}

fn start_fault(started: bool) -> Option<LoadFault>
    ensures { result ≡ start_fault started }
{
    if started {
        None
    } else {
        Some(LoadFault::Start)
    }
}

/// The fault that a load answers whose parts have ended so: of several that which comes first in the order of
/// `LoadFault`. A part that was not started counts as `Start`.
pub fn first_fault<C, R: Wait + Copy + Drop>(
    started: bool,
    dones: &[LoadDone<C, R>],
) -> Option<LoadFault>
    ensures { result ≡ first_fault started dones.now }
{
    let mut first = start_fault(started);
    for done in dones {
        first = sooner(first, fault_of(done));
    }
    first
}
