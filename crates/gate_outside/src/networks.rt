//! What a house reaches others by.
ghost use Rattle.std.specs.Prelude.{◌≡◌, IfOk};
ghost use Rattle.gate_outside.specs.Doors.{IsNewDoor};
ghost use Rattle.gate_outside.specs.Houses.{AsksDoor, PutsDoor, returned_door};

use crate::dials::Dial;
use crate::doors::Door;
use crate::faults::Fault;

/// A network gives doors at ports and takes them back; it is a dial besides. What it tells of doors is
/// what `house_tale` has of them. A house has one.
pub trait Network: Dial {
    /// The doors that it gives.
    type Gate: Door;

    /// Gives a door at that port, before its first call. It gives at most `accepts` links.
    fn door(&mut self, port: u16, accepts: u32) -> Result<Self::Gate, Fault>
        ensures fresh { IfOk result (λ d.
            IsNewDoor accepts (Self.Gate.tale d) (Self.Gate.faults d)) }
        ensures house { AsksDoor (Self.house_tale self.old) (Self.house_tale self.new)
            port accepts result }
        ensures dial { Self.tale self.new ≡ Self.tale self.old }
        ensures dial_faults { Self.faults self.new ≡ Self.faults self.old };

    /// Takes a door back. It does not allocate.
    fn put_back(&mut self, door: Self::Gate)
        ensures house { PutsDoor (Self.house_tale self.old) (Self.house_tale self.new)
            (returned_door (Self.Gate.tale door) (Self.Gate.faults door)) }
        ensures dial { Self.tale self.new ≡ Self.tale self.old }
        ensures dial_faults { Self.faults self.new ≡ Self.faults self.old };
}
