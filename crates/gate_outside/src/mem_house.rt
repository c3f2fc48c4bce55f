//! A house in memory.
ghost use Rattle.std.specs.Prelude.{◌≡◌, ◌≤◌, Ok, Some, IfOk, OnOk, OnErr};
ghost use Rattle.std.specs.Option.{option_copied, option_map};
ghost use Rattle.gate_outside.specs.Causes.{FaultHasCause};
ghost use Rattle.gate_outside.specs.Clocks.{IsNewClock};
ghost use Rattle.gate_outside.specs.Dials.{Dials, HangsUp};
ghost use Rattle.gate_outside.specs.Doors.{IsNewDoor};
ghost use Rattle.gate_outside.specs.Houses.{AsksSource, AsksDoor, AsksClock, GivesOwn, PutsBack, returned_door};
ghost use Rattle.gate_outside.specs.Links.{IsNewLink};
ghost use Rattle.gate_outside.specs.MemHouses.{new_house, house_tale_of, bytes_of, file_of, given_for, kept_source, with_ask, with_network, with_source, with_clock, Asks, AsksNetwork, Keeps};
ghost use Rattle.gate_outside.specs.StdHouses.{network_state, with_dial_of};
ghost use Rattle.gate_outside.specs.declared.asked.Asked.TheVariants as asked;

use crate::asked::Asked;
use crate::back::Back;
use crate::dials::Dial;
use crate::fault_plan::FaultPlan;
use crate::faults::Fault;
use crate::house_clock::HouseClock;
use crate::house_source::HouseSource;
use crate::houses::House;
use crate::mem_clock::MemClock;
use crate::mem_file::MemFile;
use crate::mem_streams::{MemSink, MemSource};
use crate::name::Name;
use crate::networks::Network;
use crate::shelf::Shelf;
use std::alloc::{AllocError, Global};
use std::marker::Model;

/// A house in memory: names with bytes, a clock, and a network. It tells what it was asked for and
/// what was put back.
#[derive(Drop)]
pub struct MemHouse<N: Network + Drop> {
    alloc: Global,
    files: Vec<MemFile>,
    clock: MemClock,
    network: N,
    asks: Vec<Asked>,
    plan: FaultPlan,
    sources: Shelf<MemSource>,
    clocks: Shelf<MemClock>,
}

impl<N: Network + Drop> Model for MemHouse<N> {
    ghost use Rattle.gate_outside.specs.MemHouses.{HouseState};
    ghost use Rattle.gate_outside.specs.StdHouses.{network_state};

    ghost Value = { HouseState };

    ghost view = { λ h. record {
      files = h.files.items;
      clock = h.clock;
      asks = h.asks.items;
      plan = h.plan;
      sources = h.sources;
      clocks = h.clocks;
      network = network_state (N.tale h.network) (N.faults h.network) (N.house_tale h.network);
    } };
}

impl<N: Network + Drop> MemHouse<N> {
    /// A house of these files over that network, whose clocks are copies of that one. `failing` has
    /// the numbers of the asks for a source that are to fail, from 1; an ask for a name that no file
    /// has fails too.
    pub fn new(
        alloc: Global,
        files: Vec<MemFile>,
        clock: MemClock,
        network: N,
        failing: Vec<u64>,
    ) -> MemHouse<N>
        ensures { result ≡ new_house files.items clock failing.items (network_state (N.tale network) (N.faults network) (N.house_tale network)) }
    {
        MemHouse {
            alloc,
            files,
            clock,
            network,
            asks: Vec::new(alloc),
            plan: FaultPlan::new(failing),
            sources: Shelf::new(),
            clocks: Shelf::new(),
        }
    }

    /// What it was asked for, in order.
    pub fn asks(&self) -> &[Asked]
        ensures { result.now ≡ self.now.asks }
    {
        self.asks.as_slice()
    }

    /// How often an ask for a source failed, or a source was put back that had failed.
    pub fn source_faults(&self) -> u64
        ensures { result ≡ self.now.plan.faults }
    {
        self.plan.faults()
    }

    // The first file of that name.
    fn file(&self, name: &str) -> Option<&MemFile>
        ensures { option_copied result ≡ file_of self.now.files name.now }
    {
        self.files.iter().find(|file| file.name() == name)
    }

    // What an ask gives; `None` if it fails.
    fn given(&self, name: &str) -> Result<Option<HouseSource>, AllocError>
        ensures { IfOk result (λ o. o ≡ given_for self.now name.now) }
    {
        if self.plan.fails() {
            return Ok(None);
        }
        match self.file(name) {
            Some(file) => Ok(Some(file.open(self.alloc)?)),
            None => Ok(None),
        }
    }
}

impl<N: Network + Drop> Dial for MemHouse<N> {
    type Wire = N::Wire;

    ghost tale = { λ h. h.network.dial };

    ghost faults = { λ h. h.network.dial_faults };

    ghost house_tale = { house_tale_of };

    fn dial(&mut self, url: &str) -> Result<N::Wire, Fault>
        ensures tale { Dials self.old.network.dial self.new.network.dial url.now result }
        ensures new_link { IfOk result (λ l. IsNewLink (N.Wire.tale l) (N.Wire.faults l)) }
        ensures cause { FaultHasCause self.old.network.dial_faults self.new.network.dial_faults result }
        ensures house { house_tale_of self.new ≡ house_tale_of self.old }
        ensures exact { self.new ≡ with_network self.old (with_dial_of self.old.network self.new.network) }
    {
        self.network.dial(url)
    }

    fn back(&mut self, wire: N::Wire)
        ensures tale { HangsUp self.old.network.dial self.new.network.dial (N.Wire.tale wire) (N.Wire.faults wire) }
        ensures faults { self.new.network.dial_faults ≡ self.old.network.dial_faults }
        ensures house { house_tale_of self.new ≡ house_tale_of self.old }
        ensures exact { self.new ≡ with_network self.old (with_dial_of self.old.network self.new.network) }
    {
        self.network.back(wire);
    }
}

impl<N: Network + Drop> House for MemHouse<N> {
    type In = HouseSource;

    type Out = MemSink;

    type Gate = N::Gate;

    type Time = HouseClock;

    fn source(&mut self, name: &str) -> Result<HouseSource, Fault>
        ensures fresh { IfOk result (λ s. s.plan.faults ≡ 0) }
        ensures own { IfOk result (λ s. GivesOwn (bytes_of self.old.files name.now) (Some s.left)) }
        ensures house { AsksSource (house_tale_of self.old) (house_tale_of self.new) name.now result }
        ensures dial { self.new.network.dial ≡ self.old.network.dial }
        ensures dial_faults { self.new.network.dial_faults ≡ self.old.network.dial_faults }
        ensures exact { Asks result self.old self.new name.now }
    {
        let ask = Asked::Source(Name::new(self.alloc, name)?);
        let given = self.given(name)?;
        self.asks.push(ask)?;
        match given {
            Some(source) => {
                self.plan.count_call();
                Ok(source)
            }
            None => {
                self.plan.count_failed_call();
                Err(Fault::Failed)
            }
        }
    }

    fn door(&mut self, port: u16, accepts: u32) -> Result<N::Gate, Fault>
        ensures fresh { IfOk result (λ d. IsNewDoor accepts (N.Gate.tale d) (N.Gate.faults d)) }
        ensures house { AsksDoor (house_tale_of self.old) (house_tale_of self.new) port accepts result }
        ensures dial { self.new.network.dial ≡ self.old.network.dial }
        ensures dial_faults { self.new.network.dial_faults ≡ self.old.network.dial_faults }
        ensures exact { AsksNetwork result self.old self.new (asked.Door port accepts) }
    {
        self.asks.reserve(1)?;
        match self.network.door(port, accepts) {
            Ok(door) => {
                self.asks.push_reserved(Asked::Door(port, accepts));
                Ok(door)
            }
            Err(Fault::Failed) => {
                self.asks.push_reserved(Asked::Door(port, accepts));
                Err(Fault::Failed)
            }
            Err(Fault::Memory) => Err(Fault::Memory),
        }
    }

    fn clock(&mut self) -> Result<HouseClock, AllocError>
        ensures fresh { IfOk result IsNewClock }
        ensures house { AsksClock (house_tale_of self.old) (house_tale_of self.new) result }
        ensures dial { self.new.network.dial ≡ self.old.network.dial }
        ensures dial_faults { self.new.network.dial_faults ≡ self.old.network.dial_faults }
        ensures given { IfOk result (λ c.
            option_map (λ m. m.moments) c.moments ≡ option_map (λ m. m.moments) self.old.clock.moments) }
        ensures ok { OnOk result (self.new ≡ with_ask self.old asked.Clock self.old.plan) }
        ensures err { OnErr result (self.new ≡ self.old) }
    {
        let clock = HouseClock::new(self.alloc, self.clock.again(self.alloc)?)?;
        self.asks.push(Asked::Clock)?;
        Ok(clock)
    }

    fn put_back(&mut self, part: Back<HouseSource, N::Gate, HouseClock>)
        ensures house { PutsBack kept_source
            (λ d. returned_door (N.Gate.tale d) (N.Gate.faults d))
            (λ c. c) (house_tale_of self.old) (house_tale_of self.new) part }
        ensures dial { self.new.network.dial ≡ self.old.network.dial }
        ensures dial_faults { self.new.network.dial_faults ≡ self.old.network.dial_faults }
        ensures exact { Keeps self.old self.new part }
    {
        match part {
            Back::Source(source) => {
                if source.faults() > 0 {
                    self.plan.count_fault();
                }
                self.sources.put(source.into_place());
            }
            Back::Door(door) => self.network.put_back(door),
            Back::Clock(clock) => self.clocks.put(clock.into_place()),
        }
    }
}
