//! The end of all tasks.

ghost use Rattle.std.specs.Prelude.{◌≡◌, ◌≤◌, [], length, map};
ghost use Rattle.std.specs.List.{AllZip};
ghost use Rattle.std.specs.Vec.{vec_len, vec_capacity};
ghost use Rattle.team_run.specs.Teams.{after_finishes};

use crate::adding::add;
use gate_outside::spawners::{Spawner, Task};

/// Ends all tasks that were started, in their order, and gives what each gave, in `dones`. It does not
/// allocate: the caller has made the room.
pub fn finish_all<T: Task, S: Spawner<T>>(
    team: &mut S,
    mut started: Vec<S::Held>,
    mut dones: Vec<T::Done>,
) -> Vec<T::Done>
    requires empty { dones.items ≡ [] }
    requires room { vec_len started ≤ vec_capacity dones }
    ensures gives { AllZip T.gives (map S.task_of started.items) result.items }
    ensures starts { S.starts team.new ≡ after_finishes (length started.items) (S.starts team.old) }
    ensures faults { S.faults team.new ≡ S.faults team.old }
{
    started.reverse();
    while let Some(held) = started.pop() {
        let done = team.finish(held);
        add(&mut dones, done);
    }
    started.destroy_empty();
    dones
}
