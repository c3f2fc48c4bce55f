//! The two lanes of an end in memory.
ghost use Rattle.std.specs.Prelude.{◌≡◌, Some, None, IfOk, MatchBool};
ghost use Rattle.thread_outside.specs.Lanes.{new_ends, MayGo, RefusesLane, TakesLane, PutsLane};
ghost use Rattle.thread_outside.specs.Peers.{ListsTaken, ListsPut};

use crate::kept_tale::KeptTale;
use crate::lane::{Lane, Putting, Taking};
use gate_outside::faults::Fault;
use gate_outside::sending::Sending;
use std::alloc::{AllocError, Global};
use std::marker::Model;
use std::sync::{Arc, Wait};

/// The lane that an end takes from and the lane that it puts into, with its rights.
pub(crate) struct Ends {
    from: Arc<Lane, Global>,
    to: Arc<Lane, Global>,
    takes: Taking,
    puts: Putting,
}

impl Model for Ends {
    ghost use Rattle.thread_outside.specs.EndInside.{Takes, Puts};
    ghost use Rattle.thread_outside.specs.Lanes.{LaneEnds};

    ghost Value = { LaneEnds };

    ghost view = { λ e. record {
      from = e.from.value;
      to = e.to.value;
      came = e.takes.pass.me.view.client;
      went = e.puts.pass.me.view.client;
      is_left = e.takes.seat.me.0.found;
    } };

    ghost invariant = { λ e. Takes e.from.value e.takes × Puts e.to.value e.puts };
}

impl Drop for Ends {
    fn drop(self) {
        let Self {
            from: _,
            to,
            takes: _,
            puts,
        } = self;
        let mut seat = puts.seat;
        to.leave(&mut seat);
    }
}

// Two ends, of which each takes from the lane that the other puts into.
pub(crate) fn joined_ends(alloc: Global) -> Result<(Ends, Ends), AllocError>
    ensures { IfOk result (λ ends. (ends.0 ≡ new_ends ends.0.from ends.0.to) × (ends.1 ≡ new_ends ends.0.to ends.0.from)) }
{
    let (there, near_puts, far_takes) = Lane::open(alloc)?;
    let (back, far_puts, near_takes) = Lane::open(alloc)?;
    let near = Ends {
        from: Arc::try_clone(&back)?,
        to: Arc::try_clone(&there)?,
        takes: near_takes,
        puts: near_puts,
    };
    let far = Ends {
        from: there,
        to: back,
        takes: far_takes,
        puts: far_puts,
    };
    Ok((near, far))
}

impl Ends {
    // Leaves, and keeps the passes, which tell what was taken and put.
    pub(crate) fn into_kept(self) -> KeptTale
        ensures { result ≡ record {
          gave = self.came.taken;
          sent = self.went.put;
        } }
    {
        let Ends {
            from: _,
            to,
            takes,
            puts,
        } = self;
        let Putting { pass, mut seat } = puts;
        to.leave(&mut seat);
        KeptTale::of_passes(takes.pass, pass)
    }

    // Takes what waits first.
    pub(crate) fn take<R: Wait>(&mut self, runtime: &R) -> Result<Option<Sending>, Fault>
        ensures lane { TakesLane (Some self.old) (Some self.new) result }
        ensures gave { ListsTaken self.old.came.taken self.new.came.taken result }
        ensures sent { self.new.went ≡ self.old.went }
    {
        // Asked before the lane: what was put before the other end went is found below.
        let left = self.from.may_be_left();
        match self.from.take(runtime, &mut self.takes.pass) {
            Some(sending) => Ok(Some(sending)),
            None if left && self.from.is_left(&mut self.takes.seat) => Err(Fault::Failed),
            None => Ok(None),
        }
    }

    // Whether what goes out is refused: a text, if the other end has left.
    fn refuses(&mut self, sending: &Sending) -> bool
        ensures refuses { MatchBool result
            (RefusesLane self.old (Some self.new) sending.now)
            ((self.new ≡ self.old) × MayGo self.old sending.now) }
        ensures same { (self.new.came ≡ self.old.came) × (self.new.went ≡ self.old.went) }
    {
        match sending {
            Sending::Text(_) => self.from.is_left(&mut self.takes.seat),
            Sending::Close(_) => false,
        }
    }

    // Puts what goes out.
    pub(crate) fn put<R: Wait>(&mut self, runtime: &R, sending: Sending) -> Result<(), Fault>
        ensures lane { PutsLane (Some self.old) (Some self.new) sending result }
        ensures gave { self.new.came ≡ self.old.came }
        ensures sent { ListsPut self.old.went.put self.new.went.put sending result }
    {
        if self.refuses(&sending) {
            return Err(Fault::Failed);
        }
        match self.to.put(runtime, &mut self.puts.pass, sending) {
            Ok(()) => Ok(()),
            Err(_) => Err(Fault::Memory),
        }
    }
}
