//! What gives sources, doors and clocks, opens links, and takes back what it gave.
ghost use Rattle.std.specs.Prelude.{◌≡◌, IfOk};
ghost use Rattle.gate_outside.specs.Clocks.{IsNewClock};
ghost use Rattle.gate_outside.specs.Doors.{IsNewDoor};
ghost use Rattle.gate_outside.specs.Houses.{AsksSource, AsksDoor, AsksClock, GivesOwn, PutsBack, returned_source, returned_door};

use crate::back::Back;
use crate::clocks::Clock;
use crate::dials::Dial;
use crate::doors::Door;
use crate::faults::Fault;
use crate::streams::{Sink, Source};
use std::alloc::AllocError;

/// A house gives sources by their names, doors at ports, and clocks, and takes them back; it is a dial
/// besides. It counts its faults of sources and of doors, and what it tells is `house_tale`. No call
/// but `dial` and `back` touches what it tells as a dial.
pub trait House: Dial {
    /// What it gives to read from.
    type In: Source;

    /// What is written to beside it.
    type Out: Sink;

    /// The doors that it gives.
    type Gate: Door;

    /// The clocks that it gives.
    type Time: Clock;

    /// Gives the source of that name, before its first read.
    fn source(&mut self, name: &str) -> Result<Self::In, Fault>
        ensures fresh { IfOk result (λ s. Self.In.faults s ≡ 0) }
        ensures own { IfOk result (λ s.
            GivesOwn ((Self.house_tale self.old).contents name.now) (Self.In.left s)) }
        ensures house { AsksSource (Self.house_tale self.old) (Self.house_tale self.new)
            name.now result }
        ensures dial { Self.tale self.new ≡ Self.tale self.old }
        ensures dial_faults { Self.faults self.new ≡ Self.faults self.old };

    /// Gives a door at that port, before its first call. It gives at most `accepts` links.
    fn door(&mut self, port: u16, accepts: u32) -> Result<Self::Gate, Fault>
        ensures fresh { IfOk result (λ d.
            IsNewDoor accepts (Self.Gate.tale d) (Self.Gate.faults d)) }
        ensures house { AsksDoor (Self.house_tale self.old) (Self.house_tale self.new)
            port accepts result }
        ensures dial { Self.tale self.new ≡ Self.tale self.old }
        ensures dial_faults { Self.faults self.new ≡ Self.faults self.old };

    /// Gives a clock, before its first answer. An `Err` is out of memory.
    fn clock(&mut self) -> Result<Self::Time, AllocError>
        ensures fresh { IfOk result (λ c. IsNewClock (Self.Time.tale c)) }
        ensures house { AsksClock (Self.house_tale self.old) (Self.house_tale self.new) result }
        ensures dial { Self.tale self.new ≡ Self.tale self.old }
        ensures dial_faults { Self.faults self.new ≡ Self.faults self.old };

    /// Takes a part back. It does not allocate.
    fn put_back(&mut self, part: Back<Self::In, Self::Gate, Self::Time>)
        ensures house { PutsBack
            (λ s. returned_source (Self.In.left s) (Self.In.faults s))
            (λ d. returned_door (Self.Gate.tale d) (Self.Gate.faults d))
            Self.Time.tale (Self.house_tale self.old) (Self.house_tale self.new) part }
        ensures dial { Self.tale self.new ≡ Self.tale self.old }
        ensures dial_faults { Self.faults self.new ≡ Self.faults self.old };
}
