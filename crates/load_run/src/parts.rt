//! The parts of a load in one list, in the order in which they are started.

ghost use Rattle.std.specs.Prelude.{◌≡◌, ◌+◌, ◌≤◌, ◌++◌, length};
ghost use Rattle.std.specs.Vec.{vec_len, vec_capacity};
ghost use Rattle.load_parts.specs.ByKind.{parts_of};

use gate_parts::{ActorPart, ScriptPart};
use load_parts::{ClientPart, DoorWorker, LoadPart};
use std::sync::Wait;
use team_run::add_each;

/// Adds all parts: the actors, the scripts, the workers and the clients. It does not allocate: the caller has
/// made the room.
pub fn add_parts<C: Drop, R: Wait + Copy + Drop>(
    parts: &mut Vec<LoadPart<C, R>>,
    actors: Vec<ActorPart<R>>,
    scripts: Vec<ScriptPart<R>>,
    workers: Vec<DoorWorker<C, R>>,
    clients: Vec<ClientPart<C, R>>,
)
    requires room { vec_len parts.old + (length actors.items + (length scripts.items + (length workers.items + length clients.items))) ≤ vec_capacity parts.old }
    ensures { parts.new.items ≡ parts.old.items ++ parts_of actors.items scripts.items workers.items clients.items }
{
    add_each(parts, actors);
    add_each(parts, scripts);
    add_each(parts, workers);
    add_each(parts, clients);
}
