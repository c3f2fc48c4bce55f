//! The parts of a server as one kind of task.

use crate::file_part::{FileDone, FilePart};
use gate_outside::clocks::Clock;
use gate_outside::doors::Door;
use gate_outside::spawners::Task;
use gate_outside::streams::Source;
use gate_parts::{ActorDone, ActorPart, WorkerDone, WorkerPart};
use std::sync::Wait;
use std::time;
use team_run::PartOf;
use thread_outside::quiet_notes::QuietNotes;

/// A worker's part of a server, whose inputs nobody keeps.
pub type DoorPart<D, C, R> = WorkerPart<D, C, QuietNotes, R>;

/// Such a part that has ended.
pub type DoorDone<D, C> = WorkerDone<D, C, QuietNotes>;

/// A part of a server.
#[derive(Drop)]
pub enum ServePart<S, D, C, R: Wait + Drop> {
    /// An actor.
    Actor(ActorPart<R>),
    /// A script.
    Script(FilePart<S, R>),
    /// A worker.
    Worker(DoorPart<D, C, R>),
}

/// A part of a server that has ended.
#[derive(Drop)]
pub enum ServeDone<S, D, C, R: Wait + Drop> {
    /// An actor.
    Actor(ActorDone<R>),
    /// A script.
    Script(FileDone<S>),
    /// A worker.
    Worker(DoorDone<D, C>),
}

impl<S: Source, D: Door, C: Clock, R: Wait + time::Clock + Drop> Task for ServePart<S, D, C, R>
where
    D::Wire: Drop,
{
    ghost use Rattle.serve_parts.specs.Parts.{ServeGives};

    type Done = ServeDone<S, D, C, R>;

    ghost gives = { ServeGives S.left S.faults D.tale D.faults C.tale };

    fn run(self) -> ServeDone<S, D, C, R> {
        match self {
            ServePart::Actor(part) => ServeDone::Actor(part.run()),
            ServePart::Script(part) => ServeDone::Script(part.run()),
            ServePart::Worker(part) => ServeDone::Worker(part.run()),
        }
    }
}

impl<S: Drop, D: Drop, C: Drop, R: Wait + Copy + Drop> PartOf<ServePart<S, D, C, R>>
    for ActorPart<R> {
    ghost use Rattle.serve_parts.specs.declared.serve_part.ServePart.TheVariants.{Actor};

    ghost among = { Actor };

    fn into_part(self) -> ServePart<S, D, C, R> {
        ServePart::Actor(self)
    }
}

impl<S: Drop, D: Drop, C: Drop, R: Wait + Copy + Drop> PartOf<ServePart<S, D, C, R>>
    for FilePart<S, R> {
    ghost use Rattle.serve_parts.specs.declared.serve_part.ServePart.TheVariants.{Script};

    ghost among = { Script };

    fn into_part(self) -> ServePart<S, D, C, R> {
        ServePart::Script(self)
    }
}

impl<S: Drop, D: Drop, C: Drop, R: Wait + Copy + Drop> PartOf<ServePart<S, D, C, R>>
    for DoorPart<D, C, R> {
    ghost use Rattle.serve_parts.specs.declared.serve_part.ServePart.TheVariants.{Worker};

    ghost among = { Worker };

    fn into_part(self) -> ServePart<S, D, C, R> {
        ServePart::Worker(self)
    }
}
