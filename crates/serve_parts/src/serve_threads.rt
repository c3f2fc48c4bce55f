//! A team of threads for the parts of a server.
ghost use Rattle.std.specs.Prelude.{ℕ};
ghost use Rattle.gate_outside.specs.Spawners.{Starts, no_starts};

use crate::serve_part::ServePart;
use gate_outside::clocks::Clock;
use gate_outside::doors::Door;
use gate_outside::streams::Source;
use load_parts::{TeamWork, with_threads};
use std::alloc::Global;
use std::sync::Wait;
use std::thread::Threads;
use std::time;

/// Does the work with a team that runs each part of a server in a thread of its own, as `with_threads`. The
/// links of a door have to be such as may go to another thread, since the door gives them there.
pub fn with_serve_threads<
    S: Source + Drop + Send + 'static,
    D: Door + Drop + Send + 'static,
    C: Clock + Drop + Send + 'static,
    R: Threads + Wait + time::Clock + Drop + Send + Sync + 'static,
    W: TeamWork<ServePart<S, D, C, R>>,
>(rt: &R, alloc: Global, failing: Vec<u64>, work: W) -> W::Answer
where
    D::Wire: Drop + Send,
    ensures { (starts : Starts) × (faults : ℕ) × W.gives work no_starts 0 starts faults result }
{
    with_threads(rt, alloc, failing, work)
}
