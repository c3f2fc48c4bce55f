//! Doors, at which others connect.
ghost use Rattle.std.specs.Prelude.{◌≡◌, ℕ, List};
ghost use Rattle.gate_outside.specs.Causes.{FaultHasCause};
ghost use Rattle.gate_outside.specs.Doors.{DoorTale, Accepts, GivesNew, TakesBack};
ghost use Rattle.gate_outside.specs.Links.{returned_link};

use crate::accepted::Accepted;
use crate::faults::Fault;
use crate::links::Link;

/// A door, which gives a link for each connection that others open. It counts its faults.
pub trait Door {
    /// The links that it gives.
    type Wire: Link;

    /// What the door tells: always how many links it gave and whether it has ended; where it can,
    /// also how many it will give, whether somebody waits, and each link that came back.
    ghost tale: { Self → DoorTale };

    /// How often it has failed. The count stays at its last value.
    ghost faults: { Self → ℕ };

    /// Gives a link for the one that waits first, before its first call. `NotYet` comes only if
    /// nobody waited. `Ended` comes only if all links were given, and then every answer is `Ended`. A
    /// door gives at most 2^32 - 1 links, and no more than it tells.
    fn accept(&mut self) -> Result<Accepted<Self::Wire>, Fault>
        ensures tale { Accepts (tale self.old) (tale self.new) result }
        ensures new_link { GivesNew Self.Wire.tale Self.Wire.faults result }
        ensures cause { FaultHasCause (faults self.old) (faults self.new) result };

    /// Takes a link back and drops it. It does not allocate.
    fn back(&mut self, wire: Self::Wire)
        ensures tale { TakesBack (tale self.old) (tale self.new)
            (returned_link (Self.Wire.tale wire) (Self.Wire.faults wire)) }
        ensures faults { faults self.new ≡ faults self.old };
}
