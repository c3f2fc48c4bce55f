//! A network in memory, some of whose asks for doors fail.
ghost use Rattle.std.specs.Prelude.{◌≡◌, ◌≤◌, IfOk};
ghost use Rattle.gate_outside.specs.Causes.{FaultHasCause};
ghost use Rattle.gate_outside.specs.Dials.{Dials, HangsUp};
ghost use Rattle.gate_outside.specs.Doors.{IsNewDoor};
ghost use Rattle.gate_outside.specs.Houses.{AsksDoor, PutsDoor};
ghost use Rattle.gate_outside.specs.Links.{IsNewLink};
ghost use Rattle.gate_outside.specs.declared.faults.Fault.TheVariants as fault;
ghost use Rattle.thread_outside.specs.MemDials.{dial_tale, after_back, Opens};
ghost use Rattle.thread_outside.specs.MemDoors.{door_tale};
ghost use Rattle.thread_outside.specs.MemLinks.{tale_of};
ghost use Rattle.thread_outside.specs.MemNetworks.{new_mem_network, doors_of, kept_door, after_failed_ask, with_door, GivesDoor};

use crate::door_content::DoorContent;
use crate::mem_dial::MemDial;
use crate::mem_door::MemDoor;
use crate::mem_link::MemLink;
use crate::network_door::NetworkDoor;
use crate::peer::Peer;
use gate_outside::dials::Dial;
use gate_outside::fault_plan::FaultPlan;
use gate_outside::faults::Fault;
use gate_outside::networks::Network;
use gate_outside::shelf::Shelf;
use std::collections::VecDeque;
use std::marker::Model;

/// A network in memory: doors, which are given one after another whatever the ports, and a dial. It
/// tells what was put back.
pub struct MemNetwork<P: Peer + Drop> {
    doors: VecDeque<DoorContent<P>>,
    plan: FaultPlan,
    shelf: Shelf<MemDoor<P>>,
    dial: MemDial<P>,
}

impl<P: Peer + Drop> Drop for MemNetwork<P> {
    fn drop(self) {
        let MemNetwork {
            doors,
            plan,
            shelf,
            dial,
        } = self;
        drop(doors);
        drop(plan);
        drop(shelf);
        drop(dial);
    }
}

impl<P: Peer + Drop> Model for MemNetwork<P> {
    ghost use Rattle.thread_outside.specs.MemNetworks.{MemNetworkState};

    ghost Value = { MemNetworkState };

    ghost view = { λ n. record {
      doors = n.doors.items;
      plan = n.plan;
      returned = n.shelf;
      dial = n.dial;
    } };
}

impl<P: Peer + Drop> MemNetwork<P> {
    /// A network of these doors and that dial. `failing` has the numbers of the asks for a door that
    /// are to fail, from 1; an ask for which no door is left fails too.
    pub fn new(
        doors: VecDeque<DoorContent<P>>,
        dial: MemDial<P>,
        failing: Vec<u64>,
    ) -> MemNetwork<P>
        ensures { result ≡ new_mem_network doors.items dial failing.items }
    {
        MemNetwork {
            doors,
            plan: FaultPlan::new(failing),
            shelf: Shelf::new(),
            dial,
        }
    }

    /// How often an ask for a door failed, or a door was put back that had failed.
    pub fn door_faults(&self) -> u64
        ensures { result ≡ self.now.plan.faults }
    {
        self.plan.faults()
    }

    // An ask that fails.
    fn fail(&mut self) -> Fault
        ensures result { result ≡ fault.Failed }
        ensures after { self.new ≡ after_failed_ask self.old }
        ensures rise { self.old.plan.faults ≤ self.new.plan.faults }
    {
        self.plan.count_failed_call();
        Fault::Failed
    }
}

impl<P: Peer + Drop> Dial for MemNetwork<P> {
    type Wire = MemLink<P>;

    ghost tale = { λ n. dial_tale n.dial };

    ghost faults = { λ n. n.dial.plan.faults };

    ghost house_tale = { doors_of };

    fn dial(&mut self, url: &str) -> Result<MemLink<P>, Fault>
        ensures tale { Dials (dial_tale self.old.dial) (dial_tale self.new.dial) url.now result }
        ensures new_link { IfOk result (λ l. IsNewLink (tale_of l) l.plan.faults) }
        ensures cause { FaultHasCause self.old.dial.plan.faults self.new.dial.plan.faults result }
        ensures house { doors_of self.new ≡ doors_of self.old }
        ensures opens { Opens self.old.dial self.new.dial url.now result }
        ensures exact { self.new ≡ record self.old { dial = self.new.dial } }
    {
        self.dial.dial(url)
    }

    fn back(&mut self, wire: MemLink<P>)
        ensures tale { HangsUp (dial_tale self.old.dial) (dial_tale self.new.dial) (tale_of wire) wire.plan.faults }
        ensures faults { self.new.dial.plan.faults ≡ self.old.dial.plan.faults }
        ensures house { doors_of self.new ≡ doors_of self.old }
        ensures exact { self.new ≡ record self.old { dial = after_back self.old.dial wire } }
    {
        self.dial.back(wire);
    }
}

impl<P: Peer + Drop> Network for MemNetwork<P> {
    type Gate = NetworkDoor<P>;

    fn door(&mut self, _port: u16, accepts: u32) -> Result<NetworkDoor<P>, Fault>
        ensures fresh { IfOk result (λ d. IsNewDoor accepts (door_tale d) d.plan.faults) }
        ensures house { AsksDoor (doors_of self.old) (doors_of self.new) _port accepts result }
        ensures dial { dial_tale self.new.dial ≡ dial_tale self.old.dial }
        ensures dial_faults { self.new.dial.plan.faults ≡ self.old.dial.plan.faults }
        ensures exact { GivesDoor self.old self.new accepts result }
    {
        if self.plan.fails() {
            return Err(self.fail());
        }
        match self.doors.pop_front() {
            Some(content) => {
                self.plan.count_call();
                Ok(content.open(accepts))
            }
            None => Err(self.fail()),
        }
    }

    fn put_back(&mut self, door: NetworkDoor<P>)
        ensures house { PutsDoor (doors_of self.old) (doors_of self.new) (kept_door door) }
        ensures dial { dial_tale self.new.dial ≡ dial_tale self.old.dial }
        ensures dial_faults { self.new.dial.plan.faults ≡ self.old.dial.plan.faults }
        ensures exact { self.new ≡ with_door self.old door }
    {
        if door.faults() > 0 {
            self.plan.count_fault();
        }
        self.shelf.put(door.into_place());
    }
}
