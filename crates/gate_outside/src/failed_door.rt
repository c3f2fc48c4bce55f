//! A door on which every call fails.
ghost use Rattle.std.specs.Prelude.{◌≡◌};
ghost use Rattle.gate_outside.specs.Causes.{FaultHasCause, FailsOnce};
ghost use Rattle.gate_outside.specs.Doors.{Accepts, GivesNew, failed_door};
ghost use Rattle.gate_outside.specs.Links.{failed_link};

use crate::accepted::Accepted;
use crate::doors::Door;
use crate::failed_link::FailedLink;
use crate::faults::Fault;
use std::marker::Model;

/// A door that could not be opened. Every call fails, and it gives no link.
#[derive(Drop)]
pub struct FailedDoor {
    faults: u64,
}

impl Model for FailedDoor {
    ghost use Rattle.std.specs.Prelude.{ℕ};

    ghost Value = { ℕ };

    ghost view = { λ d. d.faults };
}

impl FailedDoor {
    /// A door before its first call.
    pub fn new() -> FailedDoor
        ensures { result ≡ 0 }
    {
        FailedDoor { faults: 0 }
    }

    /// How often a call failed.
    pub fn faults(&self) -> u64
        ensures { result ≡ self.now }
    {
        self.faults
    }
}

impl Door for FailedDoor {
    type Wire = FailedLink;

    ghost tale = { λ _. failed_door };

    ghost faults = { λ d. d };

    fn accept(&mut self) -> Result<Accepted<FailedLink>, Fault>
        ensures tale { Accepts failed_door failed_door result }
        ensures new_link { GivesNew (λ _. failed_link) (λ l. l) result }
        ensures cause { FaultHasCause self.old self.new result }
        ensures fails { FailsOnce self.old self.new result }
    {
        self.faults = self.faults.saturating_add(1);
        Err(Fault::Failed)
    }

    fn back(&mut self, _wire: FailedLink) {}
}
