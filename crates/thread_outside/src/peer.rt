//! What is at the other end of a link in memory.
ghost use Rattle.std.specs.Prelude.{◌≡◌, List};
ghost use Rattle.std.specs.declared.option.Option.{Option};
ghost use Rattle.gate_outside.specs.declared.sending.Sending.{Sending};
ghost use Rattle.thread_outside.specs.Lanes.{LaneEnds, TakesLane, PutsLane};
ghost use Rattle.thread_outside.specs.Peers.{TakesTurn, ListsTaken, Puts, ListsPut};

use crate::kept_tale::KeptTale;
use gate_outside::faults::Fault;
use gate_outside::sending::Sending;

/// The other end of a link in memory: a script, or an end that another thread may hold.
pub trait Peer {
    /// The turns of a script that are still to come. An end that another may hold tells none.
    ghost turns: { Self → Option (List (Option Sending)) };

    /// What an end that another may hold took and put. A script tells none.
    ghost lane: { Self → Option LaneEnds };

    /// What was taken, in order.
    ghost gave: { Self → List Sending };

    /// What was put, in order.
    ghost sent: { Self → List Sending };

    /// Takes what waits first, or nothing. A refusal changes nothing, and a script never fails. An end
    /// that another may hold takes nothing, or fails, only if nothing waited at one step of the call,
    /// and fails only if it found that the other has left.
    fn take(&mut self) -> Result<Option<Sending>, Fault>
        ensures turn { TakesTurn (turns self.old) (turns self.new) result }
        ensures lane { TakesLane (lane self.old) (lane self.new) result }
        ensures gave { ListsTaken (gave self.old) (gave self.new) result }
        ensures sent { sent self.new ≡ sent self.old };

    /// Puts what goes out. A refusal puts nothing, and a script refuses nothing unless memory runs out. An
    /// end that another may hold refuses a text alone, if it finds that the other has left, and then each.
    fn put(&mut self, sending: Sending) -> Result<(), Fault>
        ensures turns { Puts (turns self.old) (turns self.new) result }
        ensures lane { PutsLane (lane self.old) (lane self.new) sending result }
        ensures gave { gave self.new ≡ gave self.old }
        ensures sent { ListsPut (sent self.old) (sent self.new) sending result };

    /// Leaves, and gives what is kept of what was taken and put.
    fn into_kept(self) -> KeptTale
        ensures { result ≡ record {
          gave = gave self;
          sent = sent self;
        } };
}
