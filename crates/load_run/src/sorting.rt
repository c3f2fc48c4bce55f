//! What each kind of parts of a load has left.

ghost use Rattle.std.specs.Prelude.{◌≡◌, ◌+◌, ◌≤◌, ◌++◌, ◌∷◌, [], ℕ, flat_map, length};
ghost use Rattle.load_run.specs.Sorted.{HasRoom, Sorts};
ghost use Rattle.load_run.specs.Ends.{clock_of_part};
ghost use Rattle.load_parts.specs.declared.load_part.LoadDone.TheVariants.{Script, Worker, Client};

use edit_post::SendRefused;
use gate_ends::{ScriptEnd, WorkerEnd};
use gate_parts::{ActorDone, ScriptDone};
use load_client::EndedClient;
use load_parts::{ClientDone, DoorWorkerDone, LoadDone, LoadPart};
use std::mem::ManuallyDrop;
use std::sync::Wait;
use team_run::add;

/// What the parts of each kind have left, in their order, and the clocks of all.
#[derive(Drop)]
pub struct Ends<C: Drop, R: Wait + Copy + Drop> {
    pub actors: Vec<ActorDone<R>>,
    pub scripts: Vec<ScriptEnd<SendRefused>>,
    pub workers: Vec<WorkerEnd>,
    pub clients: Vec<EndedClient>,
    pub clocks: Vec<C>,
}

impl<C: Drop, R: Wait + Copy + Drop> Ends<C, R> {
    // Adds what a script has left.
    fn add_script(&mut self, done: ScriptDone)
        requires { HasRoom 1 self.old }
        ensures sorts { Sorts (Script done ∷ []) self.old self.new }
        ensures room { (more : ℕ) → HasRoom (more + 1) self.old → HasRoom more self.new }
    {
        let (ending, passes) = done.into_parts();
        add(&mut self.scripts, ScriptEnd { ending, passes });
    }

    // Adds what a worker has left.
    fn add_worker(&mut self, done: DoorWorkerDone<C, R>)
        requires { HasRoom 1 self.old }
        ensures sorts { Sorts (Worker done ∷ []) self.old self.new }
        ensures room { (more : ℕ) → HasRoom (more + 1) self.old → HasRoom more self.new }
    {
        let (end, door, clock, notes) = WorkerEnd::of(done);
        drop(door);
        // A load is the last that its process does, which ends sooner if the system takes such lists back whole.
        let _left = ManuallyDrop::new(notes);
        add(&mut self.clocks, clock);
        add(&mut self.workers, end);
    }

    // Adds what a client has left.
    fn add_client(&mut self, done: ClientDone<C>)
        requires { HasRoom 1 self.old }
        ensures sorts { Sorts (Client done ∷ []) self.old self.new }
        ensures room { (more : ℕ) → HasRoom (more + 1) self.old → HasRoom more self.new }
    {
        let ClientDone { ended, clock } = done;
        add(&mut self.clocks, clock);
        add(&mut self.clients, ended);
    }

    // Adds what a part has left.
    fn add_done(&mut self, done: LoadDone<C, R>)
        requires { HasRoom 1 self.old }
        ensures sorts { Sorts (done ∷ []) self.old self.new }
        ensures room { (more : ℕ) → HasRoom (more + 1) self.old → HasRoom more self.new }
    {
        match done {
            LoadDone::Actor(done) => add(&mut self.actors, done),
            LoadDone::Script(done) => self.add_script(done),
            LoadDone::Worker(done) => self.add_worker(done),
            LoadDone::Client(done) => self.add_client(done),
        }
    }

    /// Adds what these parts have left. It does not allocate: the caller has made the room.
    pub fn add_all(&mut self, mut dones: Vec<LoadDone<C, R>>)
        requires { HasRoom (length dones.items) self.old }
        ensures { Sorts dones.items self.old self.new }
    {
        dones.reverse();
        while let Some(done) = dones.pop() {
            self.add_done(done);
        }
        dones.destroy_empty();
    }

    // Adds the clock of a part that was not started.
    fn add_part(&mut self, part: LoadPart<C, R>)
        requires { HasRoom 1 self.old }
        ensures same { self.new ≡ record self.old { clocks = self.new.clocks } }
        ensures clocks { self.new.clocks.items ≡ self.old.clocks.items ++ clock_of_part part }
        ensures room { (more : ℕ) → HasRoom (more + 1) self.old → HasRoom more self.new }
    {
        match part {
            LoadPart::Actor(part) => drop(part),
            LoadPart::Script(part) => drop(part),
            LoadPart::Worker(part) => add(&mut self.clocks, part.into_clock()),
            LoadPart::Client(part) => add(&mut self.clocks, part.into_clock()),
        }
    }

    /// Adds the clocks of parts that were not started. It does not allocate: the caller has made the room.
    pub fn add_back(&mut self, mut parts: Vec<LoadPart<C, R>>)
        requires { HasRoom (length parts.items) self.old }
        ensures same { self.new ≡ record self.old { clocks = self.new.clocks } }
        ensures clocks { length self.new.clocks.items ≡ length self.old.clocks.items + length (flat_map clock_of_part parts.items) }
        ensures room { (more : ℕ) → HasRoom (more + length parts.items) self.old → HasRoom more self.new }
    {
        while let Some(part) = parts.pop() {
            self.add_part(part);
        }
    }
}
