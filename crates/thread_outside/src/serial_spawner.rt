//! A spawner without threads, some of whose starts fail.
ghost use Rattle.std.specs.Prelude.{◌≡◌, ◌<◌, true, false, IfOk, IfErr, OnOk, OnErr};
ghost use Rattle.gate_outside.specs.FaultPlans.{fresh, fails};
ghost use Rattle.gate_outside.specs.Causes.{HasCause};
ghost use Rattle.gate_outside.specs.Spawners.{no_starts, after_start, after_finish};
ghost use Rattle.thread_outside.specs.Teams.{started, finished};

use crate::start_count::StartCount;
use gate_outside::fault_plan::FaultPlan;
use gate_outside::spawners::{Spawner, Task};
use std::marker::Model;

/// A spawner that starts no thread: each task runs when it is finished.
#[derive(Drop)]
pub struct SerialSpawner {
    count: StartCount,
    plan: FaultPlan,
}

impl Model for SerialSpawner {
    ghost use Rattle.thread_outside.specs.Teams.{TeamState};

    ghost Value = { TeamState };

    ghost view = { λ s. record {
      starts = s.count;
      plan = s.plan;
    } };
}

impl SerialSpawner {
    /// A spawner that was asked for nothing yet. `failing` has the numbers of the starts that are to
    /// fail, from 1.
    pub fn new(failing: Vec<u64>) -> SerialSpawner
        ensures { result ≡ record {
          starts = no_starts;
          plan = fresh failing.items;
        } }
    {
        SerialSpawner {
            count: StartCount::new(),
            plan: FaultPlan::new(failing),
        }
    }

    /// How often a start failed.
    pub fn faults(&self) -> u64
        ensures { result ≡ self.now.plan.faults }
    {
        self.plan.faults()
    }
}

impl<T: Task> Spawner<T> for SerialSpawner {
    type Held = T;

    ghost task_of = { λ t. t };

    ghost starts = { λ s. s.starts };

    ghost faults = { λ s. s.plan.faults };

    fn start(&mut self, task: T) -> Result<T, T>
        ensures held { IfOk result (λ held. held ≡ task) }
        ensures back { IfErr result (λ t. t ≡ task) }
        ensures starts { self.new.starts ≡ after_start self.old.starts }
        ensures cause { HasCause self.old.plan.faults self.new.plan.faults result }
        ensures ok { OnOk result (fails self.old.plan ≡ false) }
        ensures err { OnErr result (fails self.old.plan ≡ true) }
        ensures exact { self.new ≡ started self.old }
    {
        self.count.start();
        if self.plan.fails() {
            self.plan.count_failed_call();
            return Err(task);
        }
        self.plan.count_call();
        Ok(task)
    }

    fn finish(&mut self, held: T) -> T::Done
        ensures gives { T.gives held result }
        ensures starts { self.new.starts ≡ after_finish self.old.starts }
        ensures faults { self.new.plan.faults ≡ self.old.plan.faults }
        ensures exact { self.new ≡ finished self.old }
    {
        self.count.finish();
        held.run()
    }
}
