//! A door that a network in memory gives.
ghost use Rattle.std.specs.Prelude.{◌≡◌};
ghost use Rattle.gate_outside.specs.Causes.{FaultHasCause};
ghost use Rattle.gate_outside.specs.Doors.{Accepts, GivesNew, TakesBack};
ghost use Rattle.gate_outside.specs.Shelves.{part_at};
ghost use Rattle.thread_outside.specs.MemDoors.{door_tale, with_returned, Lets};
ghost use Rattle.thread_outside.specs.MemLinks.{tale_of, kept_link};

use crate::mem_door::MemDoor;
use crate::mem_link::MemLink;
use crate::peer::Peer;
use gate_outside::accepted::Accepted;
use gate_outside::doors::Door;
use gate_outside::faults::Fault;
use gate_outside::shelf::Place;
use std::marker::Model;

/// A door in memory with the place where a network keeps it once it is back.
#[derive(Drop)]
pub struct NetworkDoor<P: Peer + Drop> {
    place: Box<Place<MemDoor<P>>>,
}

impl<P: Peer + Drop> Model for NetworkDoor<P> {
    ghost use Rattle.gate_outside.specs.Shelves.{part_at};
    ghost use Rattle.thread_outside.specs.MemDoors.{DoorState};

    ghost Value = { DoorState };

    ghost view = { λ d. part_at d.place.value };
}

impl<P: Peer + Drop> NetworkDoor<P> {
    // The door at that place.
    pub(crate) fn at(place: Box<Place<MemDoor<P>>>) -> NetworkDoor<P>
        ensures { result ≡ part_at place.value }
    {
        NetworkDoor { place }
    }

    // How often a call failed.
    pub(crate) fn faults(&self) -> u64
        ensures { result ≡ self.now.plan.faults }
    {
        self.place.part.faults()
    }

    // The door at its place.
    pub(crate) fn into_place(self) -> Box<Place<MemDoor<P>>>
        ensures { part_at result.value ≡ self }
    {
        self.place
    }
}

impl<P: Peer + Drop> Door for NetworkDoor<P> {
    type Wire = MemLink<P>;

    ghost tale = { door_tale };

    ghost faults = { λ d. d.plan.faults };

    fn accept(&mut self) -> Result<Accepted<MemLink<P>>, Fault>
        ensures tale { Accepts (door_tale self.old) (door_tale self.new) result }
        ensures new_link { GivesNew tale_of (λ l. l.plan.faults) result }
        ensures cause { FaultHasCause self.old.plan.faults self.new.plan.faults result }
        ensures exact { Lets self.old self.new result }
    {
        self.place.part.accept()
    }

    fn back(&mut self, wire: MemLink<P>)
        ensures tale { TakesBack (door_tale self.old) (door_tale self.new) (kept_link wire) }
        ensures faults { self.new.plan.faults ≡ self.old.plan.faults }
        ensures exact { self.new ≡ with_returned self.old wire }
    {
        self.place.part.back(wire);
    }
}
