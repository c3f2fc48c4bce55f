//! One of two ends in memory, which two threads may hold.
ghost use Rattle.std.specs.Prelude.{◌≡◌, None, Some, IfOk};
ghost use Rattle.thread_outside.specs.Lanes.{new_ends};
ghost use Rattle.thread_outside.specs.MemLinks.{ArePaired};

use crate::ends::Ends;
use crate::kept_tale::KeptTale;
use crate::mem_link::MemLink;
use crate::peer::Peer;
use crate::unused::Unused;
use crate::unused_ends::UnusedEnds;
use gate_outside::faults::Fault;
use gate_outside::sending::Sending;
use std::alloc::{AllocError, Global};
use std::marker::Model;
use std::sync::Wait;

/// One of two ends. What is put at one is taken at the other, which another thread may hold.
pub struct LaneEnd<R: Wait + Drop> {
    runtime: R,
    ends: Ends,
}

impl<R: Wait + Drop> Drop for LaneEnd<R> {
    fn drop(self) {
        let LaneEnd { runtime: _, ends } = self;
        drop(ends);
    }
}

impl<R: Wait + Drop> Model for LaneEnd<R> {
    ghost use Rattle.thread_outside.specs.Lanes.{LaneEnds};

    ghost Value = { LaneEnds };

    ghost view = { λ e. e.ends };
}

impl<R: Wait + Drop> LaneEnd<R> {
    // An end of these lanes.
    pub(crate) fn new(runtime: R, ends: UnusedEnds) -> Unused<LaneEnd<R>>
        ensures { result ≡ ends }
    {
        Unused::new(LaneEnd {
            runtime,
            ends: ends.into_ends(),
        })
    }
}

/// Two ends, of which each takes what the other puts.
pub fn two_ends<R: Wait + Copy + Drop>(
    runtime: R,
    alloc: Global,
) -> Result<(Unused<LaneEnd<R>>, Unused<LaneEnd<R>>), AllocError>
    ensures { IfOk result (λ ends. (ends.0 ≡ new_ends ends.0.from ends.0.to) × (ends.1 ≡ new_ends ends.0.to ends.0.from)) }
{
    let (near, far) = UnusedEnds::joined(alloc)?;
    Ok((LaneEnd::new(runtime, near), LaneEnd::new(runtime, far)))
}

impl<R: Wait + Copy + Drop> MemLink<LaneEnd<R>> {
    /// Two links to one another, which two threads may hold. `recv` answers `NotYet` only if nothing
    /// waited at one step of the call. Once one link is dropped, `send` on the other fails, and so does
    /// `recv` once no text and no close code is left for it.
    pub fn pair(
        runtime: R,
        alloc: Global,
    ) -> Result<(MemLink<LaneEnd<R>>, MemLink<LaneEnd<R>>), AllocError>
        ensures { IfOk result (λ links. ArePaired links.0 links.1) }
    {
        let (near, far) = two_ends(runtime, alloc)?;
        let near = MemLink::new(alloc, near, Vec::new(alloc))?;
        let far = MemLink::new(alloc, far, Vec::new(alloc))?;
        Ok((near, far))
    }
}

impl<R: Wait + Drop> Peer for LaneEnd<R> {
    ghost turns = { λ _. None };

    ghost lane = { λ e. Some e };

    ghost gave = { λ e. e.came.taken };

    ghost sent = { λ e. e.went.put };

    fn take(&mut self) -> Result<Option<Sending>, Fault> {
        self.ends.take(&self.runtime)
    }

    fn put(&mut self, sending: Sending) -> Result<(), Fault> {
        self.ends.put(&self.runtime, sending)
    }

    fn into_kept(self) -> KeptTale {
        let LaneEnd { runtime: _, ends } = self;
        ends.into_kept()
    }
}
