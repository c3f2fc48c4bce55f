//! Links: connections, over which texts go both ways.
ghost use Rattle.std.specs.Prelude.{◌≡◌, ℕ, IfOk};
ghost use Rattle.gate_outside.specs.Causes.{FaultHasCause};
ghost use Rattle.gate_outside.specs.Links.{LinkTale, Receives, Sends, Closes};

use crate::faults::Fault;
use crate::incoming::Incoming;

/// A connection, over which texts go both ways. It counts its faults.
pub trait Link {
    /// What the link tells: always its own close and whether it has given a text; where it can, also
    /// what waits, what it gave and what it was sent.
    ghost tale: { Self → LinkTale };

    /// How often it has failed. The count stays at its last value.
    ghost faults: { Self → ℕ };

    /// Gives the text or the close code that waits first. `NotYet` comes only if nothing waited. After
    /// the link's own close it gives that code.
    fn recv(&mut self) -> Result<Incoming, Fault>
        ensures tale { Receives (tale self.old) (tale self.new) result }
        ensures cause { FaultHasCause (faults self.old) (faults self.new) result };

    /// Sends a text. A refusal sends nothing. After the link's own close it does nothing.
    fn send(&mut self, text: &str) -> Result<(), Fault>
        ensures tale { Sends (tale self.old) (tale self.new) text.now result }
        ensures cause { FaultHasCause (faults self.old) (faults self.new) result };

    /// Closes the link with that code. A refusal leaves it open. A second close does nothing.
    fn close(&mut self, code: u16) -> Result<(), Fault>
        ensures tale { Closes (tale self.old) (tale self.new) code result }
        ensures cause { FaultHasCause (faults self.old) (faults self.new) result };
}
