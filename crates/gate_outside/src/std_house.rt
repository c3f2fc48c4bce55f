//! A house over the system.
ghost use Rattle.std.specs.Prelude.{◌≡◌, None, Ok, IfOk};
ghost use Rattle.gate_outside.specs.Causes.{FaultHasCause};
ghost use Rattle.gate_outside.specs.Clocks.{IsNewClock};
ghost use Rattle.gate_outside.specs.Dials.{Dials, HangsUp};
ghost use Rattle.gate_outside.specs.Doors.{IsNewDoor};
ghost use Rattle.gate_outside.specs.Houses.{AsksSource, AsksDoor, AsksClock, PutsBack, returned_source, returned_door};
ghost use Rattle.gate_outside.specs.Links.{IsNewLink};
ghost use Rattle.gate_outside.specs.StdHouses.{network_state, real_tale, with_dial_of, after_ask, Retakes};
ghost use Rattle.gate_outside.specs.StdStreams.{new_input};

use crate::back::Back;
use crate::buffered_sink::BufferedSink;
use crate::dials::Dial;
use crate::faults::Fault;
use crate::houses::House;
use crate::machine_clock::MachineClock;
use crate::networks::Network;
use crate::std_streams::{FileSource, StdoutSink};
use std::alloc::AllocError;
use std::fs;
use std::io::{ErrorKind, Input, Print};
use std::marker::Model;
use std::rt::Files;
use std::time::Clock as MachineTime;

/// The name of standard input.
pub const STANDARD_INPUT: &str = "-";

/// The house of the program: files by their paths, standard input by the name `-`, the machine's
/// clock, and the doors and links of a network. It tells its counts, and what the network tells.
#[derive(Drop)]
pub struct RealHouse<R: Files + Input + Print + MachineTime + Copy + Drop, N: Network + Drop> {
    runtime: R,
    network: N,
    faults: u64,
}

impl<R: Files + Input + Print + MachineTime + Copy + Drop, N: Network + Drop> Model
    for RealHouse<R, N> {
    ghost use Rattle.gate_outside.specs.StdHouses.{RealHouseState, network_state};

    ghost Value = { RealHouseState };

    ghost view = { λ h. record {
      source_faults = h.faults;
      network = network_state (N.tale h.network) (N.faults h.network) (N.house_tale h.network);
    } };
}

impl<R: Files + Input + Print + MachineTime + Copy + Drop, N: Network + Drop> RealHouse<R, N> {
    /// A house over that runtime and that network.
    pub fn new(runtime: R, network: N) -> RealHouse<R, N>
        ensures { result ≡ record {
          source_faults = 0;
          network = network_state (N.tale network) (N.faults network) (N.house_tale network);
        } }
    {
        RealHouse {
            runtime,
            network,
            faults: 0,
        }
    }
}

impl<R: Files + Input + Print + MachineTime + Copy + Drop, N: Network + Drop> Dial
    for RealHouse<R, N> {
    type Wire = N::Wire;

    ghost tale = { λ h. h.network.dial };

    ghost faults = { λ h. h.network.dial_faults };

    ghost house_tale = { real_tale };

    fn dial(&mut self, url: &str) -> Result<N::Wire, Fault>
        ensures tale { Dials self.old.network.dial self.new.network.dial url.now result }
        ensures new_link { IfOk result (λ l. IsNewLink (N.Wire.tale l) (N.Wire.faults l)) }
        ensures cause { FaultHasCause self.old.network.dial_faults self.new.network.dial_faults result }
        ensures house { real_tale self.new ≡ real_tale self.old }
        ensures exact { self.new ≡ record self.old { network = with_dial_of self.old.network self.new.network } }
    {
        self.network.dial(url)
    }

    fn back(&mut self, wire: N::Wire)
        ensures tale { HangsUp self.old.network.dial self.new.network.dial (N.Wire.tale wire) (N.Wire.faults wire) }
        ensures faults { self.new.network.dial_faults ≡ self.old.network.dial_faults }
        ensures house { real_tale self.new ≡ real_tale self.old }
        ensures exact { self.new ≡ record self.old { network = with_dial_of self.old.network self.new.network } }
    {
        self.network.back(wire);
    }
}

impl<R: Files + Input + Print + MachineTime + Copy + Drop, N: Network + Drop> House
    for RealHouse<R, N> {
    type In = FileSource<R::File, R::Reader>;

    type Out = BufferedSink<StdoutSink<R>>;

    type Gate = N::Gate;

    type Time = MachineClock<R>;

    fn source(&mut self, name: &str) -> Result<FileSource<R::File, R::Reader>, Fault>
        ensures fresh { IfOk result (λ s. s ≡ new_input) }
        ensures house { AsksSource (real_tale self.old) (real_tale self.new) name.now result }
        ensures dial { self.new.network.dial ≡ self.old.network.dial }
        ensures dial_faults { self.new.network.dial_faults ≡ self.old.network.dial_faults }
        ensures exact { self.new ≡ after_ask self.old result }
    {
        if name == STANDARD_INPUT {
            return Ok(FileSource::standard_input(self.runtime.reader()));
        }
        match fs::open(&self.runtime, name) {
            Ok(file) => Ok(FileSource::file(file)),
            Err(error) => {
                if error.kind() == ErrorKind::OutOfMemory {
                    return Err(Fault::Memory);
                }
                self.faults = self.faults.saturating_add(1);
                Err(Fault::Failed)
            }
        }
    }

    fn door(&mut self, port: u16, accepts: u32) -> Result<N::Gate, Fault>
        ensures fresh { IfOk result (λ d. IsNewDoor accepts (N.Gate.tale d) (N.Gate.faults d)) }
        ensures house { AsksDoor (real_tale self.old) (real_tale self.new) port accepts result }
        ensures dial { self.new.network.dial ≡ self.old.network.dial }
        ensures dial_faults { self.new.network.dial_faults ≡ self.old.network.dial_faults }
        ensures exact { self.new ≡ record self.old { network = self.new.network } }
    {
        self.network.door(port, accepts)
    }

    fn clock(&mut self) -> Result<MachineClock<R>, AllocError>
        ensures fresh { IfOk result (λ c. IsNewClock (record { latest = c; moments = None })) }
        ensures house { AsksClock (real_tale self.old) (real_tale self.new) result }
        ensures dial { self.new.network.dial ≡ self.old.network.dial }
        ensures dial_faults { self.new.network.dial_faults ≡ self.old.network.dial_faults }
        ensures exact { (result ≡ Ok 0) × (self.new ≡ self.old) }
    {
        Ok(MachineClock::new(self.runtime))
    }

    fn put_back(&mut self, part: Back<FileSource<R::File, R::Reader>, N::Gate, MachineClock<R>>)
        ensures house { PutsBack
            (λ s. returned_source None s.faults)
            (λ d. returned_door (N.Gate.tale d) (N.Gate.faults d))
            (λ c. record { latest = c; moments = None })
            (real_tale self.old) (real_tale self.new) part }
        ensures dial { self.new.network.dial ≡ self.old.network.dial }
        ensures dial_faults { self.new.network.dial_faults ≡ self.old.network.dial_faults }
        ensures exact { Retakes self.old self.new part }
    {
        match part {
            Back::Source(source) => {
                if source.faults() > 0 {
                    self.faults = self.faults.saturating_add(1);
                }
            }
            Back::Door(door) => self.network.put_back(door),
            Back::Clock(_) => {}
        }
    }
}
