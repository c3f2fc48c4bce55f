//! All parts of a run are started, and begin by one word.

ghost use Rattle.std.specs.Prelude.{◌≡◌, ◌≤◌, [], if◌then◌else◌};
ghost use Rattle.std.specs.Vec.{vec_len, vec_capacity};
ghost use Rattle.stop_flag.specs.Flags.{after_set};
ghost use Rattle.run_stage.specs.Begins.{Begins};

use gate_outside::spawners::{Spawner, Task};
use gate_parts::StartWord;
use stop_flag::StopSeat;
use team_run::start_all;

/// The tasks that were started, and those that came back.
pub struct Begun<T, H> {
    pub started: Vec<H>,
    pub back: Vec<T>,
}

// Gives the word by which the parts begin. If some did not start, the flag is set before.
fn give_word(word: &StartWord, seat: &mut StopSeat, stops: bool)
    ensures { seat.new ≡ (if stops then after_set seat.old else seat.old) }
{
    if stops {
        seat.set();
    }
    word.give();
}

/// Starts the tasks in order, and gives the word. If one comes back, the seat sets the stop flag before the word, so
/// that the others stop. It does not allocate: the caller has made the room.
pub fn begin_all<T: Task + Drop, S: Spawner<T>>(
    team: &mut S,
    tasks: Vec<T>,
    mut started: Vec<S::Held>,
    word: &StartWord,
    seat: &mut StopSeat,
    empty: Vec<T>,
) -> Begun<T, S::Held>
    requires none { (started.items ≡ []) × (empty.items ≡ []) }
    requires room { vec_len tasks ≤ vec_capacity started }
    ensures { Begins S.task_of tasks.items (S.starts team.old) (S.starts team.new) (S.faults team.old) (S.faults team.new) seat.old seat.new result.started.items result.back.items }
{
    let back = match start_all(team, tasks, &mut started) {
        Ok(()) => empty,
        Err(back) => back,
    };
    give_word(word, seat, !back.is_empty());
    Begun { started, back }
}
