//! What a door of a network in memory is made from.
ghost use Rattle.std.specs.Prelude.{◌≡◌, IfOk};
ghost use Rattle.thread_outside.specs.MemDoors.{new_door};

use crate::link_content::LinkContent;
use crate::mem_door::MemDoor;
use crate::network_door::NetworkDoor;
use crate::peer::Peer;
use gate_outside::shelf::Place;
use std::alloc::{AllocError, Global};
use std::collections::VecDeque;
use std::marker::Model;

/// Who waits at a door that is to be opened, and the numbers of its calls that are to fail, from 1. It
/// brings the place where a network keeps the door once it is back.
#[derive(Drop)]
pub struct DoorContent<P: Peer + Drop> {
    place: Box<Place<MemDoor<P>>>,
}

impl<P: Peer + Drop> Model for DoorContent<P> {
    ghost use Rattle.std.specs.Prelude.{◌≡◌, ◌^◌, ◌-◌};
    ghost use Rattle.gate_outside.specs.Shelves.{part_at};
    ghost use Rattle.thread_outside.specs.MemDoors.{new_door};
    ghost use Rattle.thread_outside.specs.MemNetworks.{DoorContentState};

    ghost Value = { DoorContentState };

    ghost view = { λ c. record {
      callers = (part_at c.place.value).callers;
      failing = (part_at c.place.value).plan.failing;
    } };

    ghost invariant = { λ c. part_at c.place.value
        ≡ new_door (part_at c.place.value).callers (2 ^ 32 - 1) (part_at c.place.value).plan.failing };
}

impl<P: Peer + Drop> DoorContent<P> {
    /// A door at which these wait, call by call, as `MemDoor::new`.
    pub fn new(
        alloc: Global,
        callers: VecDeque<Option<LinkContent<P>>>,
        failing: Vec<u64>,
    ) -> Result<DoorContent<P>, AllocError>
        ensures { IfOk result (λ c. c ≡ record {
          callers = callers.items;
          failing = failing.items;
        }) }
    {
        let door = MemDoor::new(alloc, callers, failing);
        Ok(DoorContent {
            place: Place::new(alloc, door)?,
        })
    }

    // The door, which gives at most so many links.
    pub(crate) fn open(self, accepts: u32) -> NetworkDoor<P>
        ensures { result ≡ new_door self.callers accepts self.failing }
    {
        let mut place = self.place;
        place.part.limit(accepts);
        NetworkDoor::at(place)
    }
}
