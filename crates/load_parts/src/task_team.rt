//! A team that starts and ends tasks by functions.
ghost use Rattle.std.specs.Prelude.{◌≡◌, false, IfOk, IfErr, OnOk};
ghost use Rattle.gate_outside.specs.Causes.{HasCause};
ghost use Rattle.gate_outside.specs.FaultPlans.{fresh, fails};
ghost use Rattle.gate_outside.specs.Spawners.{no_starts, after_start, after_finish};
ghost use Rattle.thread_outside.specs.Teams.{finished};
ghost use Rattle.load_parts.specs.TaskTeams.{StartsTasks, EndsTasks, after_asked};

use crate::function::Function;
use gate_outside::fault_plan::FaultPlan;
use gate_outside::spawners::{Spawner, Task};
use std::marker::{Model, PhantomData};
use thread_outside::running::Running;
use thread_outside::start_count::StartCount;

/// What stands for a task that was started.
pub trait Started<T> {
    /// The task.
    ghost task: { Self → T };
}

impl<T: Task> Started<T> for Running<T> {
    ghost task = { λ running. running };
}

/// A team that starts and ends tasks by functions. The thread of a task whose type has parameters can be
/// started by a function, and not by a method of a trait: so a team of threads for such tasks is made of
/// closures that call the functions.
#[derive(Drop)]
pub struct TaskTeam<
    D,
    T: Task<Done = D>,
    H: Started<T>,
    B: Function<Input = T, Output = Result<H, T>> + Drop,
    E: Function<Input = H, Output = D> + Drop,
> {
    begin: B,
    end: E,
    count: StartCount,
    plan: FaultPlan,
    of: PhantomData<(D, T, H)>,
}

impl<
    D,
    T: Task<Done = D>,
    H: Started<T>,
    B: Function<Input = T, Output = Result<H, T>> + Drop,
    E: Function<Input = H, Output = D> + Drop,
> Model for TaskTeam<D, T, H, B, E> {
    ghost use Rattle.std.specs.Prelude.{◌≡◌};
    ghost use Rattle.thread_outside.specs.Teams.{TeamState};
    ghost use Rattle.load_parts.specs.TaskTeams.{StartsTasks, EndsTasks};

    ghost Value = { TeamState };

    ghost view = { λ team. record {
      starts = team.count;
      plan = team.plan;
    } };

    ghost invariant = { λ team. StartsTasks B.accepts B.gives H.task team.begin × EndsTasks E.accepts E.gives T.gives H.task team.end };
}

impl<
    D,
    T: Task<Done = D>,
    H: Started<T>,
    B: Function<Input = T, Output = Result<H, T>> + Drop,
    E: Function<Input = H, Output = D> + Drop,
> TaskTeam<D, T, H, B, E> {
    /// A team that was asked for nothing yet. `failing` has the numbers of the starts that are to fail, from
    /// 1.
    pub fn new(begin: B, end: E, failing: Vec<u64>) -> TaskTeam<D, T, H, B, E>
        requires begins { StartsTasks B.accepts B.gives H.task begin }
        requires ends { EndsTasks E.accepts E.gives T.gives H.task end }
        ensures { result ≡ record {
          starts = no_starts;
          plan = fresh failing.items;
        } }
    {
        TaskTeam {
            begin,
            end,
            count: StartCount::new(),
            plan: FaultPlan::new(failing),
            of: PhantomData,
        }
    }

    /// How often a start failed.
    pub fn faults(&self) -> u64
        ensures { result ≡ self.now.plan.faults }
    {
        self.plan.faults()
    }
}

impl<
    D,
    T: Task<Done = D>,
    H: Started<T>,
    B: Function<Input = T, Output = Result<H, T>> + Drop,
    E: Function<Input = H, Output = D> + Drop,
> Spawner<T> for TaskTeam<D, T, H, B, E> {
    type Held = H;

    ghost task_of = { H.task };

    ghost starts = { λ team. team.starts };

    ghost faults = { λ team. team.plan.faults };

    fn start(&mut self, task: T) -> Result<H, T>
        ensures held { IfOk result (λ held. H.task held ≡ task) }
        ensures back { IfErr result (λ t. t ≡ task) }
        ensures starts { self.new.starts ≡ after_start self.old.starts }
        ensures cause { HasCause self.old.plan.faults self.new.plan.faults result }
        ensures planned { OnOk result (fails self.old.plan ≡ false) }
        ensures exact { self.new ≡ after_asked self.old result }
    {
        self.count.start();
        if self.plan.fails() {
            self.plan.count_failed_call();
            return Err(task);
        }
        match self.begin.call(task) {
            Ok(held) => {
                self.plan.count_call();
                Ok(held)
            }
            Err(task) => {
                self.plan.count_failed_call();
                Err(task)
            }
        }
    }

    fn finish(&mut self, held: H) -> D
        ensures gives { T.gives (H.task held) result }
        ensures starts { self.new.starts ≡ after_finish self.old.starts }
        ensures faults { self.new.plan.faults ≡ self.old.plan.faults }
        ensures exact { self.new ≡ finished self.old }
    {
        self.count.finish();
        self.end.call(held)
    }
}
