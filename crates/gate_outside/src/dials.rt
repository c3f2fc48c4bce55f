//! Dials, which open connections.
ghost use Rattle.std.specs.Prelude.{◌≡◌, ℕ, List, IfOk};
ghost use Rattle.gate_outside.specs.Causes.{FaultHasCause};
ghost use Rattle.gate_outside.specs.Dials.{DialTale, Dials, HangsUp};
ghost use Rattle.gate_outside.specs.Houses.{HouseTale};
ghost use Rattle.gate_outside.specs.Links.{IsNewLink};

use crate::faults::Fault;
use crate::links::Link;

/// A dial, which opens connections to URLs. It counts its faults.
pub trait Dial {
    /// The links that it opens.
    type Wire: Link;

    /// What the dial tells: always its dry run, the number of failures since a link gave a text; where
    /// it can, also each URL and each link that came back.
    ghost tale: { Self → DialTale };

    /// How often it has failed. The count stays at its last value.
    ghost faults: { Self → ℕ };

    /// What the house tells whose dial this is. No call of the dial changes it.
    ghost house_tale: { Self → HouseTale };

    /// Opens a link to that URL. A failure adds one to the dry run.
    fn dial(&mut self, url: &str) -> Result<Self::Wire, Fault>
        ensures tale { Dials (tale self.old) (tale self.new) url.now result }
        ensures new_link { IfOk result (λ l. IsNewLink (Self.Wire.tale l) (Self.Wire.faults l)) }
        ensures cause { FaultHasCause (faults self.old) (faults self.new) result }
        ensures house { house_tale self.new ≡ house_tale self.old };

    /// Takes a link back and drops it. The dry run begins anew where the link gave a text; then a link
    /// that has failed adds one to it. It does not allocate.
    fn back(&mut self, wire: Self::Wire)
        ensures tale { HangsUp (tale self.old) (tale self.new)
            (Self.Wire.tale wire) (Self.Wire.faults wire) }
        ensures faults { faults self.new ≡ faults self.old }
        ensures house { house_tale self.new ≡ house_tale self.old };
}
