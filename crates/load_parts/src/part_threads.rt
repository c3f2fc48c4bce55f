//! A team of threads for the parts of a load.
ghost use Rattle.std.specs.Prelude.{ℕ};
ghost use Rattle.gate_outside.specs.Spawners.{Starts, no_starts};

use crate::load_part::LoadPart;
use crate::team_work::{TeamWork, with_threads};
use gate_outside::clocks::Clock;
use std::alloc::Global;
use std::sync::Wait;
use std::thread::Threads;
use std::time;

/// Does the work with a team that runs each part of a load in a thread of its own, as `with_threads`.
pub fn with_part_threads<
    C: Clock + Drop + Send + 'static,
    R: Threads + Wait + time::Clock + Copy + Drop + Send + Sync + 'static,
    W: TeamWork<LoadPart<C, R>>,
>(rt: &R, alloc: Global, failing: Vec<u64>, work: W) -> W::Answer
    ensures { (starts : Starts) × (faults : ℕ) × W.gives work no_starts 0 starts faults result }
{
    with_threads(rt, alloc, failing, work)
}
