//! A clock that a house in memory gave.
ghost use Rattle.std.specs.Prelude.{◌≡◌, IfOk};
ghost use Rattle.gate_outside.specs.Shelves.{part_at};

use crate::clocks::Clock;
use crate::mem_clock::MemClock;
use crate::shelf::Place;
use std::alloc::{AllocError, Global};
use std::marker::Model;

/// A clock that a house in memory gave. It brings the place where the house keeps it once it is back.
#[derive(Drop)]
pub struct HouseClock {
    place: Box<Place<MemClock>>,
}

impl Model for HouseClock {
    ghost use Rattle.gate_outside.specs.Clocks.{ClockTale};
    ghost use Rattle.gate_outside.specs.Shelves.{part_at};

    ghost Value = { ClockTale };

    ghost view = { λ c. part_at c.place.value };
}

impl HouseClock {
    // The clock with a place for it.
    pub(crate) fn new(alloc: Global, clock: MemClock) -> Result<HouseClock, AllocError>
        ensures { IfOk result (λ c. c ≡ clock) }
    {
        Ok(HouseClock {
            place: Place::new(alloc, clock)?,
        })
    }

    // The clock at its place.
    pub(crate) fn into_place(self) -> Box<Place<MemClock>>
        ensures { part_at result.value ≡ self }
    {
        self.place
    }
}

impl Clock for HouseClock {
    ghost tale = { λ c. c };

    fn now_ms(&mut self) -> u64 {
        self.place.part.now_ms()
    }

    fn pause(&mut self) {}
}
