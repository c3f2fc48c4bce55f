//! A team of threads.
ghost use Rattle.std.specs.Prelude.{◌≡◌, IfOk, IfErr};
ghost use Rattle.gate_outside.specs.Causes.{HasCause, count_after};
ghost use Rattle.gate_outside.specs.Spawners.{after_start, after_finish};
ghost use Rattle.thread_outside.specs.Teams.{new_team};

use crate::running::{Running, begin, end};
use crate::start_count::StartCount;
use gate_outside::spawners::Task;
use std::alloc::Global;
use std::marker::Model;
use std::thread::Threads;

/// A team that runs each task in a thread of its own. Its calls serve as those of a spawner of any
/// task.
#[derive(Drop)]
pub struct ThreadTeam<R: Threads + Drop> {
    runtime: R,
    alloc: Global,
    count: StartCount,
    faults: u64,
}

impl<R: Threads + Drop> Model for ThreadTeam<R> {
    ghost use Rattle.thread_outside.specs.Teams.{ThreadTeamState};

    ghost Value = { ThreadTeamState };

    ghost view = { λ t. record {
      starts = t.count;
      faults = t.faults;
    } };
}

impl<R: Threads + Drop> ThreadTeam<R> {
    /// A team that was asked for nothing yet.
    pub fn new(runtime: R, alloc: Global) -> ThreadTeam<R>
        ensures { result ≡ new_team }
    {
        ThreadTeam {
            runtime,
            alloc,
            count: StartCount::new(),
            faults: 0,
        }
    }

    /// Starts a thread that runs the task, as `Spawner::start`. The task comes back where memory or
    /// threads are wanting.
    pub fn start_task<T: Task + Drop + Send + 'static>(&mut self, task: T) -> Result<Running<T>, T>
    where
        T::Done: Send + Drop + 'static,
        ensures held { IfOk result (λ held. held ≡ task) }
        ensures back { IfErr result (λ t. t ≡ task) }
        ensures starts { self.new.starts ≡ after_start self.old.starts }
        ensures cause { HasCause self.old.faults self.new.faults result }
        ensures faults { self.new.faults ≡ count_after self.old.faults result }
    {
        self.count.start();
        match begin(&self.runtime, self.alloc, task) {
            Ok(running) => Ok(running),
            Err(task) => {
                self.faults = self.faults.saturating_add(1);
                Err(task)
            }
        }
    }

    /// Waits for the thread of the task, and gives what the task gave, as `Spawner::finish`.
    pub fn finish_task<T: Task + Drop + Send + 'static>(&mut self, running: Running<T>) -> T::Done
    where
        T::Done: Send + Drop + 'static,
        ensures gives { T.gives running result }
        ensures starts { self.new.starts ≡ after_finish self.old.starts }
        ensures faults { self.new.faults ≡ self.old.faults }
    {
        self.count.finish();
        end(&self.runtime, running)
    }

    /// How often a start failed.
    pub fn faults(&self) -> u64
        ensures { result ≡ self.now.faults }
    {
        self.faults
    }
}
