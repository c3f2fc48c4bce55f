//! The parts of a run in one list, in the order in which they are started.

ghost use Rattle.std.specs.Prelude.{◌≡◌, ◌+◌, ◌≤◌, ◌++◌, length};
ghost use Rattle.std.specs.Vec.{vec_len, vec_capacity};
ghost use Rattle.serve_parts.specs.ByKind.{parts_of};

use gate_parts::ActorPart;
use serve_parts::{DoorPart, FilePart, ServePart};
use std::sync::Wait;
use team_run::add_each;

/// Adds all parts: the actors, the scripts and the workers. It does not allocate: the caller has made the room.
pub fn add_parts<S: Drop, D: Drop, C: Drop, R: Wait + Copy + Drop>(
    parts: &mut Vec<ServePart<S, D, C, R>>,
    actors: Vec<ActorPart<R>>,
    scripts: Vec<FilePart<S, R>>,
    workers: Vec<DoorPart<D, C, R>>,
)
    requires room { vec_len parts.old + (length actors.items + (length scripts.items + length workers.items)) ≤ vec_capacity parts.old }
    ensures { parts.new.items ≡ parts.old.items ++ parts_of actors.items scripts.items workers.items }
{
    add_each(parts, actors);
    add_each(parts, scripts);
    add_each(parts, workers);
}
