//! What is done with a team, and a team of threads for it.
ghost use Rattle.std.specs.Prelude.{◌≡◌, ℕ, IfOk, IfErr};
ghost use Rattle.gate_outside.specs.Spawners.{Starts, no_starts};
ghost use Rattle.load_parts.specs.TaskTeams.{StartsTasks, EndsTasks};

use crate::function::{Closure, Function};
use crate::task_team::{Started, TaskTeam};
use gate_outside::spawners::{Spawner, Task};
use std::alloc::Global;
use std::marker::PhantomData;
use std::thread::Threads;
use thread_outside::running::{self, Running};

/// What is done with a team, whichever it is.
pub trait TeamWork<T: Task> {
    /// What it gives.
    type Answer;

    /// What it may give with a team that has these numbers before and after: its starts and its faults.
    ghost gives: { Self → Starts → ℕ → Starts → ℕ → Self.Answer → Type 0 };

    /// Does it.
    fn work<S: Spawner<T>>(self, team: &mut S) -> Self::Answer
        ensures { gives self (S.starts team.old) (S.faults team.old) (S.starts team.new) (S.faults team.new) result };
}

// Does it with a team of these functions.
fn by_functions<
    D,
    T: Task<Done = D>,
    H: Started<T>,
    B: Function<Input = T, Output = Result<H, T>> + Drop,
    E: Function<Input = H, Output = D> + Drop,
    W: TeamWork<T>,
>(begin: B, end: E, failing: Vec<u64>, work: W) -> W::Answer
    requires begins { StartsTasks B.accepts B.gives H.task begin }
    requires ends { EndsTasks E.accepts E.gives T.gives H.task end }
    ensures { (starts : Starts) × (faults : ℕ) × W.gives work no_starts 0 starts faults result }
{
    let mut team: TaskTeam<D, T, H, B, E> = TaskTeam::new(begin, end, failing);
    work.work(&mut team)
}

// Does it with a team of these closures.
fn by_closures<
    D,
    T: Task<Done = D>,
    H: Started<T>,
    F: Fn(T) -> Result<H, T> + Drop,
    G: Fn(H) -> D + Drop,
    W: TeamWork<T>,
>(begin: F, end: G, failing: Vec<u64>, work: W) -> W::Answer
    requires begins { StartsTasks F.pre F.post H.task begin }
    requires ends { EndsTasks G.pre G.post T.gives H.task end }
    ensures { (starts : Starts) × (faults : ℕ) × W.gives work no_starts 0 starts faults result }
{
    let begin: Closure<T, Result<H, T>, F> = Closure::new(begin);
    let end: Closure<H, D, G> = Closure::new(end);
    by_functions(begin, end, failing, work)
}

// Starts a thread that runs the task. What it gives is named for the closure that calls this.
fn begin<D: Send + Drop + 'static, T: Task<Done = D> + Drop + Send + 'static, R: Threads>(
    rt: &R,
    alloc: Global,
    task: T,
    _gives: &PhantomData<D>,
) -> Result<Running<T>, T>
    ensures held { IfOk result (λ held. held ≡ task) }
    ensures back { IfErr result (λ back. back ≡ task) }
{
    running::begin(rt, alloc, task)
}

// Waits for the thread of the task. What it gives is named for the closure that calls this.
fn end<D: Send + Drop + 'static, T: Task<Done = D> + Drop + Send + 'static, R: Threads>(
    rt: &R,
    held: Running<T>,
    _gives: &PhantomData<D>,
) -> D
    ensures { T.gives held result }
{
    running::end(rt, held)
}

/// Does it with a team that runs each task in a thread of its own, and has been asked for nothing. `failing`
/// has the numbers of the starts that are to fail, from 1. A start fails too where memory or threads are
/// wanting.
pub fn with_threads<
    D: Send + Drop + 'static,
    T: Task<Done = D> + Drop + Send + 'static,
    R: Threads + Drop,
    W: TeamWork<T>,
>(rt: &R, alloc: Global, failing: Vec<u64>, work: W) -> W::Answer
    ensures { (starts : Starts) × (faults : ℕ) × W.gives work no_starts 0 starts faults result }
{
    let gives: PhantomData<D> = PhantomData;
    by_closures(
        |task: T| begin(rt, alloc, task, &gives),
        |held: Running<T>| end(rt, held, &gives),
        failing,
        work,
    )
}
