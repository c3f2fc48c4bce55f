//! Tasks, and what starts them.
ghost use Rattle.std.specs.Prelude.{◌≡◌, ℕ, IfOk, IfErr};
ghost use Rattle.gate_outside.specs.Causes.{HasCause};
ghost use Rattle.gate_outside.specs.Spawners.{Starts, after_start, after_finish};

/// A piece of work.
pub trait Task {
    /// What it gives.
    type Done;

    /// What `run` may give for a task.
    ghost gives: { Self → Self.Done → Type 0 };

    /// Does the work.
    fn run(self) -> Self::Done
        ensures { gives self result };
}

/// A spawner, which starts tasks and gives what they gave. It counts its faults.
pub trait Spawner<T: Task> {
    /// A task that was started.
    type Held;

    /// The task that was started.
    ghost task_of: { Self.Held → T };

    /// How many starts it was asked for, how many finishes, and how many starts after a finish.
    ghost starts: { Self → Starts };

    /// How often it has failed. The count stays at its last value.
    ghost faults: { Self → ℕ };

    /// Starts a task. The task comes back exactly if the spawner failed.
    fn start(&mut self, task: T) -> Result<Self::Held, T>
        ensures held { IfOk result (λ held. task_of held ≡ task) }
        ensures back { IfErr result (λ t. t ≡ task) }
        ensures starts { starts self.new ≡ after_start (starts self.old) }
        ensures cause { HasCause (faults self.old) (faults self.new) result };

    /// Ends a task that was started, and gives what it gave.
    fn finish(&mut self, held: Self::Held) -> T::Done
        ensures gives { T.gives (task_of held) result }
        ensures starts { starts self.new ≡ after_finish (starts self.old) }
        ensures faults { faults self.new ≡ faults self.old };
}
