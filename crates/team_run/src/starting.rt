//! The start of all tasks.

ghost use Rattle.std.specs.Prelude.{◌≡◌, ◌+◌, ◌-◌, ◌<◌, ◌≤◌, ◌++◌, length, map, take, MatchResult, IfErr};
ghost use Rattle.std.specs.Vec.{vec_len, vec_capacity};
ghost use Rattle.gate_outside.specs.Causes.{HasCause};
ghost use Rattle.team_run.specs.Teams.{after_starts};

use crate::adding::add;
use gate_outside::spawners::{Spawner, Task};

/// Starts the tasks in order, until one comes back. What was started stands in `started`, after what
/// was there, in the order of the tasks. It does not allocate: the caller has made the room.
///
/// # Errors
/// The tasks that were not started, in order: the first of them is the one that came back, which it
/// does only if the spawner failed.
pub fn start_all<T: Task, S: Spawner<T>>(
    team: &mut S,
    mut tasks: Vec<T>,
    started: &mut Vec<S::Held>,
) -> Result<(), Vec<T>>
    requires room { vec_len started.old + vec_len tasks ≤ vec_capacity started.old }
    ensures started { MatchResult result
        (λ _. map S.task_of started.new.items ≡ map S.task_of started.old.items ++ tasks.items)
        (λ back. map S.task_of started.new.items ++ back.items ≡ map S.task_of started.old.items ++ tasks.items) }
    ensures kept { take (length started.old.items) started.new.items ≡ started.old.items }
    ensures back { IfErr result (λ back. 0 < length back.items) }
    ensures starts { MatchResult result
        (λ _. S.starts team.new ≡ after_starts (length tasks.items) (S.starts team.old))
        (λ back. S.starts team.new ≡ after_starts (length tasks.items + 1 - length back.items) (S.starts team.old)) }
    ensures cause { HasCause (S.faults team.old) (S.faults team.new) result }
{
    tasks.reverse();
    while let Some(task) = tasks.pop() {
        match team.start(task) {
            Ok(held) => add(started, held),
            Err(task) => {
                add(&mut tasks, task);
                tasks.reverse();
                return Err(tasks);
            }
        }
    }
    tasks.destroy_empty();
    Ok(())
}
