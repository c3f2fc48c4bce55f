//! A task that a thread of a team runs.
ghost use Rattle.std.specs.Prelude.{◌≡◌, IfOk, IfErr, MatchResult};
ghost use Rattle.thread_outside.specs.Outcomes.{IsOutcome};

use crate::outcome::Outcome;
use gate_outside::spawners::Task;
use std::alloc::Global;
use std::marker::Model;
use std::snapshot::Snapshot;
use std::sync::Arc;
use std::sync::atomic::{AtomicBool, Ordering};
use std::thread;
use std::thread::{Promise, PromisedHandle, Threads};

// What the thread of this task owes: what the task may give, or the task.
#[derive(Drop)]
struct Given<T: Task> {
    task: Snapshot<T>,
}

impl<T: Task> Promise<Outcome<T, T::Done>> for Given<T> {
    ghost kept_by = { λ p r. IsOutcome T.gives p.task.value r };
}

/// A task that was started: the thread that runs it, or what it gave. Contracts see the task.
pub struct Running<T: Task> {
    work: Result<PromisedHandle<Outcome<T, T::Done>, Given<T>>, T::Done>,
    task: Snapshot<T>,
}

impl<T: Task> Model for Running<T> {
    ghost Value = { T };

    ghost coded = { T.code };

    ghost view = { λ r. r.task.value };

    ghost invariant = { λ r. MatchResult r.work (λ h. h.promise.task.value ≡ r.task.value) (λ d. T.gives r.task.value d) };
}

// Runs the task, unless it is not to run: then it comes back.
fn run_or_back<T: Task>(task: T, go: &AtomicBool) -> Outcome<T, T::Done>
    ensures { IsOutcome T.gives task result }
{
    if go.load(Ordering::SeqCst) {
        Outcome::Ran(task.run())
    } else {
        Outcome::Back(task)
    }
}

// Starts a thread that runs the task. The task comes back if the system refuses.
fn try_begin<T: Task + Drop + Send + 'static, R: Threads>(
    runtime: &R,
    alloc: Global,
    task: T,
) -> Result<Running<T>, T>
where
    T::Done: Send + Drop + 'static,
    ensures held { IfOk result (λ h. h ≡ task) }
    ensures back { IfErr result (λ t. t ≡ task) }
{
    let Ok(go) = Arc::new(alloc, AtomicBool::new(true)) else {
        return Err(task);
    };
    let Ok(theirs) = Arc::try_clone(&go) else {
        return Err(task);
    };
    let kept = Snapshot::of(&task);
    let promise = Given {
        task: Snapshot::of(&task),
    };
    match thread::spawn_with(runtime, promise, move || run_or_back(task, &theirs)) {
        Ok(handle) => Ok(Running {
            work: Ok(handle),
            task: kept,
        }),
        Err(refused) => {
            // No thread was made: the closure is run here, and only hands its task back.
            go.store(false, Ordering::SeqCst);
            match (refused.value)() {
                Outcome::Back(task) => Err(task),
                Outcome::Ran(done) => Ok(Running {
                    work: Err(done),
                    task: kept,
                }),
            }
        }
    }
}

/// Starts a thread that runs the task. What was wanting may be there a moment later, so a start that the system refuses
/// is asked for once more (pthread_create(3), EAGAIN). The task comes back where memory or threads are wanting both times.
pub fn begin<T: Task + Drop + Send + 'static, R: Threads>(
    runtime: &R,
    alloc: Global,
    task: T,
) -> Result<Running<T>, T>
where
    T::Done: Send + Drop + 'static,
    ensures held { IfOk result (λ h. h ≡ task) }
    ensures back { IfErr result (λ t. t ≡ task) }
{
    match try_begin(runtime, alloc, task) {
        Ok(running) => Ok(running),
        Err(task) => try_begin(runtime, alloc, task),
    }
}

/// Waits for the thread, and gives what its task gave.
pub fn end<T: Task + Drop + Send + 'static, R: Threads>(runtime: &R, running: Running<T>) -> T::Done
where
    T::Done: Send + Drop + 'static,
    ensures { T.gives running result }
{
    let Running { work, task: _ } = running;
    match work {
        Err(done) => done,
        Ok(handle) => match handle.join(runtime) {
            Outcome::Ran(done) => done,
            Outcome::Back(task) => task.run(),
        },
    }
}
