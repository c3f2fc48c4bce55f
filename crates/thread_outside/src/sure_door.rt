//! A door in memory that never fails.
ghost use Rattle.std.specs.Prelude.{◌≡◌, ◌^◌, ◌-◌, [], IsOkUnless};
ghost use Rattle.gate_outside.specs.Causes.{FaultHasCause};
ghost use Rattle.gate_outside.specs.Doors.{Accepts, GivesNew, TakesBack};
ghost use Rattle.gate_outside.specs.declared.faults.Fault.TheVariants as fault;
ghost use Rattle.thread_outside.specs.MemLinks.{tale_of, kept_link};
ghost use Rattle.thread_outside.specs.MemDoors.{new_door, door_tale, with_returned, Lets};

use crate::link_content::LinkContent;
use crate::mem_door::MemDoor;
use crate::mem_link::MemLink;
use crate::peer::Peer;
use gate_outside::accepted::Accepted;
use gate_outside::doors::Door;
use gate_outside::faults::Fault;
use std::alloc::Global;
use std::collections::VecDeque;
use std::marker::Model;

/// A door in memory that never fails. Its links may fail.
#[derive(Drop)]
pub struct SureDoor<P: Peer + Drop> {
    door: MemDoor<P>,
}

impl<P: Peer + Drop> Model for SureDoor<P> {
    ghost use Rattle.std.specs.Prelude.{◌≡◌, []};
    ghost use Rattle.thread_outside.specs.MemDoors.{DoorState};

    ghost Value = { DoorState };

    ghost view = { λ d. d.door };

    ghost invariant = { λ d. d.door.plan.failing ≡ [] };
}

impl<P: Peer + Drop> SureDoor<P> {
    /// A door at which these wait, call by call. At a turn of `None` nobody waits, and after the last
    /// turn, or after 2^32 - 1 links, the door has ended.
    pub fn new(alloc: Global, callers: VecDeque<Option<LinkContent<P>>>) -> SureDoor<P>
        ensures { result ≡ new_door callers.items (2 ^ 32 - 1) [] }
    {
        SureDoor {
            door: MemDoor::new(alloc, callers, Vec::new(alloc)),
        }
    }
}

impl<P: Peer + Drop> Door for SureDoor<P> {
    type Wire = MemLink<P>;

    ghost tale = { door_tale };

    ghost faults = { λ _. 0 };

    fn accept(&mut self) -> Result<Accepted<MemLink<P>>, Fault>
        ensures tale { Accepts (door_tale self.old) (door_tale self.new) result }
        ensures new_link { GivesNew tale_of (λ l. l.plan.faults) result }
        ensures cause { FaultHasCause 0 0 result }
        ensures exact { Lets self.old self.new result }
        ensures memory { IsOkUnless result fault.Memory }
    {
        self.door.accept()
    }

    fn back(&mut self, wire: MemLink<P>)
        ensures tale { TakesBack (door_tale self.old) (door_tale self.new) (kept_link wire) }
        ensures exact { self.new ≡ with_returned self.old wire }
    {
        self.door.back(wire);
    }
}
