//! All parts of a load are started, begin by one word, and are waited for.

ghost use Rattle.std.specs.Prelude.{◌≡◌, ◌+◌, ◌≤◌, ◌++◌, [], true, length, map};
ghost use Rattle.std.specs.List.{AllZip};
ghost use Rattle.std.specs.Vec.{vec_len, vec_capacity};
ghost use Rattle.gate_outside.specs.Causes.{Rose};
ghost use Rattle.team_run.specs.Teams.{many_more};
ghost use Rattle.load_run.specs.Runs.{RanParts};

use gate_outside::spawners::{Spawner, Task};
use gate_parts::StartWord;
use run_stage::{Begun, begin_all};
use stop_flag::StopSeat;
use team_run::finish_all;

/// What the parts of a run gave that were started, and those that were not started.
pub struct Ran<T, D> {
    pub dones: Vec<D>,
    pub back: Vec<T>,
}

/// Starts the tasks in order, gives the word, and finishes those that were started, in order. If one comes
/// back, the stop flag is set before the word, so that the others stop. It does not allocate: the caller has
/// made the room.
pub fn run_parts<T: Task + Drop, S: Spawner<T>>(
    team: &mut S,
    tasks: Vec<T>,
    started: Vec<S::Held>,
    dones: Vec<T::Done>,
    word: &StartWord,
    mut seat: StopSeat,
    empty: Vec<T>,
) -> Ran<T, T::Done>
    requires none { (started.items ≡ []) × (dones.items ≡ []) × (empty.items ≡ []) }
    requires room { (vec_len tasks ≤ vec_capacity started) × (vec_len tasks ≤ vec_capacity dones) }
    ensures { RanParts T.gives tasks.items (S.starts team.old) (S.starts team.new) (S.faults team.old) (S.faults team.new) result.dones.items result.back.items }
{
    let Begun { started, back } = begin_all(team, tasks, started, word, &mut seat, empty);
    let dones = finish_all(team, started, dones);
    Ran { dones, back }
}
