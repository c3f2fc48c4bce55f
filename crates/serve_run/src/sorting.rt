//! What each kind of parts has left is sorted.

ghost use Rattle.std.specs.Prelude.{◌≡◌, ◌+◌, ◌≤◌, ◌++◌, ◌∷◌, [], ℕ, List, flat_map, length};
ghost use Rattle.serve_run.specs.Sorted.{HasRoom, HasSpace, Sorts, GivesBack, source_of_part, door_of_part, clock_of_part};
ghost use Rattle.serve_parts.specs.declared.serve_part.ServeDone.TheVariants.{Script, Worker};

use crate::ends::{Ends, Returned};
use gate_ends::{ScriptEnd, WorkerEnd};
use serve_parts::{DoorDone, FileDone, ServeDone, ServePart};
use std::sync::Wait;
use team_run::add;

impl<S: Drop, D: Drop, C: Drop, R: Wait + Copy + Drop> Ends<S, D, C, R> {
    // Adds what a script has left.
    fn add_script(&mut self, done: FileDone<S>)
        requires { HasRoom 1 self.old }
        ensures sorts { Sorts (Script done ∷ []) self.old self.new }
        ensures room { (more : ℕ) → HasRoom (more + 1) self.old → HasRoom more self.new }
    {
        let FileDone {
            ending,
            source,
            passes,
            seat,
        } = done;
        drop(seat);
        add(&mut self.returned.sources, source);
        add(&mut self.scripts, ScriptEnd { ending, passes });
    }

    // Adds what a worker has left.
    fn add_worker(&mut self, done: DoorDone<D, C>)
        requires { HasRoom 1 self.old }
        ensures sorts { Sorts (Worker done ∷ []) self.old self.new }
        ensures room { (more : ℕ) → HasRoom (more + 1) self.old → HasRoom more self.new }
    {
        let (end, door, clock, notes) = WorkerEnd::of(done);
        drop(notes);
        add(&mut self.returned.doors, door);
        add(&mut self.returned.clocks, clock);
        add(&mut self.workers, end);
    }

    // Adds what a part has left.
    fn add_done(&mut self, done: ServeDone<S, D, C, R>)
        requires { HasRoom 1 self.old }
        ensures sorts { Sorts (done ∷ []) self.old self.new }
        ensures room { (more : ℕ) → HasRoom (more + 1) self.old → HasRoom more self.new }
    {
        match done {
            ServeDone::Actor(done) => add(&mut self.actors, done),
            ServeDone::Script(done) => self.add_script(done),
            ServeDone::Worker(done) => self.add_worker(done),
        }
    }

    /// Adds what these parts have left. It does not allocate: the caller has made the room.
    pub fn add_all(&mut self, mut dones: Vec<ServeDone<S, D, C, R>>)
        requires { HasRoom (length dones.items) self.old }
        ensures { Sorts dones.items self.old self.new }
    {
        dones.reverse();
        while let Some(done) = dones.pop() {
            self.add_done(done);
        }
        dones.destroy_empty();
    }

    // Gives back what a part had that was not started.
    fn add_part(&mut self, part: ServePart<S, D, C, R>)
        requires { HasRoom 1 self.old }
        ensures same { self.new ≡ record self.old { returned = self.new.returned } }
        ensures back { GivesBack (source_of_part part) (door_of_part part) (clock_of_part part) self.old.returned self.new.returned }
        ensures room { (more : ℕ) → HasRoom (more + 1) self.old → HasRoom more self.new }
    {
        match part {
            ServePart::Actor(part) => drop(part),
            ServePart::Script(part) => add(&mut self.returned.sources, part.into_source()),
            ServePart::Worker(part) => {
                let (door, clock) = part.into_outside();
                add(&mut self.returned.doors, door);
                add(&mut self.returned.clocks, clock);
            }
        }
    }

    /// Gives back what parts had that were not started. It does not allocate: the caller has made the room.
    pub fn add_back(&mut self, mut parts: Vec<ServePart<S, D, C, R>>)
        requires { HasRoom (length parts.items) self.old }
        ensures same { self.new ≡ record self.old { returned = self.new.returned } }
        ensures sources { length self.new.returned.sources.items ≡ length self.old.returned.sources.items + length (flat_map source_of_part parts.items) }
        ensures doors { length self.new.returned.doors.items ≡ length self.old.returned.doors.items + length (flat_map door_of_part parts.items) }
        ensures clocks { length self.new.returned.clocks.items ≡ length self.old.returned.clocks.items + length (flat_map clock_of_part parts.items) }
        ensures room { (more : ℕ) → HasRoom (more + length parts.items) self.old → HasRoom more self.new }
    {
        while let Some(part) = parts.pop() {
            self.add_part(part);
        }
    }
}
