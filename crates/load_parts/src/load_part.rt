//! The parts of a load as one kind of task.

use crate::client_part::{ClientDone, ClientPart};
use gate_outside::clocks::Clock;
use gate_outside::spawners::Task;
use gate_parts::{ActorDone, ActorPart, ScriptDone, ScriptPart, WorkerDone, WorkerPart};
use std::sync::Wait;
use std::time;
use team_run::PartOf;
use thread_outside::dialled_door::DialledDoor;
use thread_outside::kept_notes::KeptNotes;
use worker_core::Input;

/// A worker's part of a load, whose clients dial its door and whose inputs are kept.
pub type DoorWorker<C, R> = WorkerPart<DialledDoor<R>, C, KeptNotes<Input>, R>;

/// Such a part that has ended.
pub type DoorWorkerDone<C, R> = WorkerDone<DialledDoor<R>, C, KeptNotes<Input>>;

/// A part of a load.
#[derive(Drop)]
pub enum LoadPart<C, R: Wait + Copy + Drop> {
    /// An actor.
    Actor(ActorPart<R>),
    /// A script.
    Script(ScriptPart<R>),
    /// A worker.
    Worker(DoorWorker<C, R>),
    /// A client.
    Client(ClientPart<C, R>),
}

/// A part of a load that has ended.
#[derive(Drop)]
pub enum LoadDone<C, R: Wait + Copy + Drop> {
    /// An actor.
    Actor(ActorDone<R>),
    /// A script.
    Script(ScriptDone),
    /// A worker.
    Worker(DoorWorkerDone<C, R>),
    /// A client.
    Client(ClientDone<C>),
}

impl<C: Clock, R: Wait + time::Clock + Copy + Drop> Task for LoadPart<C, R> {
    ghost use Rattle.load_parts.specs.Parts.{LoadGives};

    type Done = LoadDone<C, R>;

    ghost gives = { LoadGives C.tale };

    fn run(self) -> LoadDone<C, R> {
        match self {
            LoadPart::Actor(part) => LoadDone::Actor(part.run()),
            LoadPart::Script(part) => LoadDone::Script(part.run()),
            LoadPart::Worker(part) => LoadDone::Worker(part.run()),
            LoadPart::Client(part) => LoadDone::Client(part.run()),
        }
    }
}

impl<C: Drop, R: Wait + Copy + Drop> PartOf<LoadPart<C, R>> for ActorPart<R> {
    ghost use Rattle.load_parts.specs.declared.load_part.LoadPart.TheVariants.{Actor};

    ghost among = { Actor };

    fn into_part(self) -> LoadPart<C, R> {
        LoadPart::Actor(self)
    }
}

impl<C: Drop, R: Wait + Copy + Drop> PartOf<LoadPart<C, R>> for ScriptPart<R> {
    ghost use Rattle.load_parts.specs.declared.load_part.LoadPart.TheVariants.{Script};

    ghost among = { Script };

    fn into_part(self) -> LoadPart<C, R> {
        LoadPart::Script(self)
    }
}

impl<C: Drop, R: Wait + Copy + Drop> PartOf<LoadPart<C, R>> for DoorWorker<C, R> {
    ghost use Rattle.load_parts.specs.declared.load_part.LoadPart.TheVariants.{Worker};

    ghost among = { Worker };

    fn into_part(self) -> LoadPart<C, R> {
        LoadPart::Worker(self)
    }
}

impl<C: Drop, R: Wait + Copy + Drop> PartOf<LoadPart<C, R>> for ClientPart<C, R> {
    ghost use Rattle.load_parts.specs.declared.load_part.LoadPart.TheVariants.{Client};

    ghost among = { Client };

    fn into_part(self) -> LoadPart<C, R> {
        LoadPart::Client(self)
    }
}
