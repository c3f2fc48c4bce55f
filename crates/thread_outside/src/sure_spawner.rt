//! A spawner without threads that never fails.
ghost use Rattle.std.specs.Prelude.{◌≡◌, Ok};
ghost use Rattle.gate_outside.specs.Causes.{HasCause};
ghost use Rattle.gate_outside.specs.Spawners.{no_starts, after_start};

use crate::start_count::StartCount;
use gate_outside::spawners::{Spawner, Task};
use std::marker::Model;

/// A spawner that starts no thread and never fails: each task runs when it is finished.
#[derive(Drop)]
pub struct SureSpawner {
    count: StartCount,
}

impl Model for SureSpawner {
    ghost use Rattle.gate_outside.specs.Spawners.{Starts};

    ghost Value = { Starts };

    ghost view = { λ s. s.count };
}

impl SureSpawner {
    /// A spawner that was asked for nothing yet.
    pub fn new() -> SureSpawner
        ensures { result ≡ no_starts }
    {
        SureSpawner {
            count: StartCount::new(),
        }
    }
}

impl<T: Task> Spawner<T> for SureSpawner {
    ghost use Rattle.std.specs.Prelude.{IfOk, IfErr};

    type Held = T;

    ghost task_of = { λ t. t };

    ghost starts = { λ s. s };

    ghost faults = { λ _. 0 };

    fn start(&mut self, task: T) -> Result<T, T>
        ensures held { IfOk result (λ held. held ≡ task) }
        ensures back { IfErr result (λ t. t ≡ task) }
        ensures starts { self.new ≡ after_start self.old }
        ensures cause { HasCause 0 0 result }
        ensures always { result ≡ Ok task }
    {
        self.count.start();
        Ok(task)
    }

    fn finish(&mut self, held: T) -> T::Done {
        self.count.finish();
        held.run()
    }
}
