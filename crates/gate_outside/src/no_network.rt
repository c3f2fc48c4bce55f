//! The network of a house that has none.
ghost use Rattle.std.specs.Prelude.{◌≡◌, false, IfOk};
ghost use Rattle.gate_outside.specs.Causes.{FaultHasCause, FailsOnce};
ghost use Rattle.gate_outside.specs.Dials.{Dials, HangsUp, dry_after_link};
ghost use Rattle.gate_outside.specs.Doors.{IsNewDoor, failed_door};
ghost use Rattle.gate_outside.specs.Houses.{AsksDoor, PutsDoor, returned_door};
ghost use Rattle.gate_outside.specs.Links.{IsNewLink, failed_link};
ghost use Rattle.gate_outside.specs.StdHouses.{new_network, dial_tale_of, doors_of, after_failed_dial, after_failed_ask, count_with};

use crate::dials::Dial;
use crate::failed_door::FailedDoor;
use crate::failed_link::FailedLink;
use crate::faults::Fault;
use crate::networks::Network;
use std::marker::Model;

/// No network. Each dial fails, and each ask for a door.
#[derive(Drop)]
pub struct NoNetwork {
    dry_run: u64,
    dial_faults: u64,
    door_faults: u64,
}

impl Model for NoNetwork {
    ghost use Rattle.gate_outside.specs.StdHouses.{NoNetworkState};

    ghost Value = { NoNetworkState };

    ghost view = { λ n. record {
      dry_run = n.dry_run;
      dial_faults = n.dial_faults;
      door_faults = n.door_faults;
    } };
}

impl NoNetwork {
    /// No network, before its first call.
    pub fn new() -> NoNetwork
        ensures { result ≡ new_network }
    {
        NoNetwork {
            dry_run: 0,
            dial_faults: 0,
            door_faults: 0,
        }
    }
}

impl Dial for NoNetwork {
    type Wire = FailedLink;

    ghost tale = { dial_tale_of };

    ghost faults = { λ n. n.dial_faults };

    ghost house_tale = { doors_of };

    fn dial(&mut self, _url: &str) -> Result<FailedLink, Fault>
        ensures tale { Dials (dial_tale_of self.old) (dial_tale_of self.new) _url.now result }
        ensures new_link { IfOk result (λ l. IsNewLink failed_link l) }
        ensures cause { FaultHasCause self.old.dial_faults self.new.dial_faults result }
        ensures house { doors_of self.new ≡ doors_of self.old }
        ensures fails { FailsOnce self.old.dial_faults self.new.dial_faults result }
        ensures exact { self.new ≡ after_failed_dial self.old }
    {
        self.dial_faults = self.dial_faults.saturating_add(1);
        self.dry_run = self.dry_run.saturating_add(1);
        Err(Fault::Failed)
    }

    fn back(&mut self, wire: FailedLink)
        ensures tale { HangsUp (dial_tale_of self.old) (dial_tale_of self.new) failed_link wire }
        ensures faults { self.new.dial_faults ≡ self.old.dial_faults }
        ensures house { doors_of self.new ≡ doors_of self.old }
        ensures exact { self.new ≡ record self.old { dry_run = dry_after_link self.old.dry_run false wire } }
    {
        if wire.faults() > 0 {
            self.dry_run = self.dry_run.saturating_add(1);
        }
    }
}

impl Network for NoNetwork {
    type Gate = FailedDoor;

    fn door(&mut self, _port: u16, _accepts: u32) -> Result<FailedDoor, Fault>
        ensures fresh { IfOk result (λ d. IsNewDoor _accepts failed_door d) }
        ensures house { AsksDoor (doors_of self.old) (doors_of self.new) _port _accepts result }
        ensures dial { dial_tale_of self.new ≡ dial_tale_of self.old }
        ensures dial_faults { self.new.dial_faults ≡ self.old.dial_faults }
        ensures fails { FailsOnce self.old.door_faults self.new.door_faults result }
        ensures exact { self.new ≡ after_failed_ask self.old }
    {
        self.door_faults = self.door_faults.saturating_add(1);
        Err(Fault::Failed)
    }

    fn put_back(&mut self, door: FailedDoor)
        ensures house { PutsDoor (doors_of self.old) (doors_of self.new) (returned_door failed_door door) }
        ensures dial { dial_tale_of self.new ≡ dial_tale_of self.old }
        ensures dial_faults { self.new.dial_faults ≡ self.old.dial_faults }
        ensures exact { self.new ≡ record self.old { door_faults = count_with self.old.door_faults door } }
    {
        if door.faults() > 0 {
            self.door_faults = self.door_faults.saturating_add(1);
        }
    }
}
