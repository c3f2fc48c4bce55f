//! A worker's part of a run.
ghost use Rattle.gate_parts.specs.Ready.{CanWork, CanWork-prop};

use crate::bell_clock::BellClock;
use crate::ending::Ending;
use crate::posts::Posts;
use crate::seats::{finds_stop, set_after};
use crate::start_word::StartWord;
use edit_post::SendPass;
use gate_outside::clocks::Clock;
use gate_outside::doors::Door;
use gate_outside::notes::Notes;
use guild_hub::HubReader;
use guild_posts::end_all;
use snowflake_id::Snowflake;
use std::alloc::Global;
use std::sync::Wait;
use std::time;
use stop_flag::StopSeat;
use worker_run::{Input, WorkFault, WorkReport, Worker, work};

/// A worker's part of a run.
pub struct WorkerPart<D, C, J, R: Drop> {
    /// The handle.
    pub rt: R,
    /// What it allocates by.
    pub alloc: Global,
    /// The worker.
    pub worker: Worker,
    /// The door at which clients connect.
    pub door: D,
    /// Its clock.
    pub clock: C,
    /// A reader of each guild's hub.
    pub readers: Vec<(Snowflake, HubReader)>,
    /// The posts of all actors.
    pub posts: Posts<R>,
    /// A pass of each post, in order.
    pub passes: Vec<SendPass>,
    /// Notes of what the worker is given.
    pub notes: J,
    /// The word by which it begins.
    pub word: StartWord,
    /// Its seat at the stop flag.
    pub seat: StopSeat,
    /// There are posts, no pass has ended, and the readers are of distinct guilds, each of its guild's hub.
    pub ghost ready: { CanWork posts passes.items readers.items } by { CanWork-prop posts passes.items readers.items },
}

/// A worker's part that has ended.
#[derive(Drop)]
pub struct WorkerDone<D, C, J> {
    /// How it ended.
    pub ending: Ending<Result<WorkReport, WorkFault>>,
    /// The door.
    pub door: D,
    /// The clock.
    pub clock: C,
    /// The readers.
    pub readers: Vec<(Snowflake, HubReader)>,
    /// The passes, which have ended.
    pub passes: Vec<SendPass>,
    /// The notes.
    pub notes: J,
    /// Its seat at the stop flag, which has set it after a fault.
    pub seat: StopSeat,
}

// One call drops a part, so that no crate above proves the drop of what it holds again.
impl<D: Drop, C: Drop, J: Drop, R: Drop> Drop for WorkerPart<D, C, J, R> {
    fn drop(self) {
        drop(self.into_clock());
    }
}

impl<D, C, J: Drop, R: Drop> WorkerPart<D, C, J, R> {
    ghost use Rattle.std.specs.Prelude.{◌≡◌};

    /// The door and the clock. All else is dropped.
    pub fn into_outside(self) -> (D, C)
        ensures { (result.0 ≡ self.door) × (result.1 ≡ self.clock) }
    {
        let WorkerPart {
            rt: _,
            alloc: _,
            worker,
            door,
            clock,
            readers,
            posts,
            passes,
            notes,
            word,
            seat,
        } = self;
        drop(worker);
        drop(readers);
        drop(posts);
        drop(passes);
        drop(notes);
        drop(word);
        drop(seat);
        (door, clock)
    }
}

impl<D: Drop, C, J: Drop, R: Drop> WorkerPart<D, C, J, R> {
    ghost use Rattle.std.specs.Prelude.{◌≡◌};

    /// The clock. All else is dropped.
    pub fn into_clock(self) -> C
        ensures { result ≡ self.clock }
    {
        let (door, clock) = self.into_outside();
        drop(door);
        clock
    }
}

impl<D: Door, C: Clock, J: Notes<Input>, R: Wait + time::Clock + Drop> WorkerPart<D, C, J, R>
where
    D::Wire: Drop,
{
    ghost use Rattle.std.specs.Prelude.{◌≡◌, false, map};
    ghost use Rattle.edit_post.specs.Post.{after_end};
    ghost use Rattle.gate_parts.specs.declared.ending.Ending.TheVariants.{Stopped};
    ghost use Rattle.gate_parts.specs.Endings.{has_stopped};
    ghost use Rattle.gate_parts.specs.Workers.{WorkerGives};

    // Ends its passes.
    fn stop(self) -> WorkerDone<D, C, J>
        ensures seat { (result.ending ≡ Stopped) × (result.seat ≡ self.seat) }
        ensures same { (result.door ≡ self.door) × (result.clock ≡ self.clock) × (result.readers ≡ self.readers) × (result.notes ≡ self.notes) }
        ensures passes { result.passes.items ≡ map after_end self.passes.items }
    {
        let WorkerPart {
            rt: _,
            alloc: _,
            worker,
            door,
            clock,
            readers,
            posts,
            mut passes,
            notes,
            word,
            seat,
        } = self;
        drop(worker);
        drop(word);
        end_all(posts.as_slice(), &mut passes);
        WorkerDone {
            ending: Ending::Stopped,
            door,
            clock,
            readers,
            passes,
            notes,
            seat,
        }
    }

    // Serves, with pauses that end when an actor publishes, and sets the flag after a fault.
    fn serve(self) -> WorkerDone<D, C, J>
        ensures ran { has_stopped result.ending ≡ false }
        ensures gives { WorkerGives D.tale D.faults C.tale J.noted self result }
    {
        let WorkerPart {
            rt,
            alloc,
            worker,
            mut door,
            clock,
            mut readers,
            posts,
            mut passes,
            mut notes,
            word: _,
            mut seat,
        } = self;
        let mut bell_clock = BellClock::new(clock, &rt, posts.shown());
        let worked = work(
            &rt,
            alloc,
            worker,
            &mut door,
            &mut bell_clock,
            &mut readers,
            posts.as_slice(),
            &mut passes,
            &mut notes,
        );
        set_after(&mut seat, worked.is_err());
        WorkerDone {
            ending: Ending::Ran(worked),
            door,
            clock: bell_clock.into_clock(),
            readers,
            passes,
            notes,
            seat,
        }
    }

    /// Waits for the word, and then serves the connections of its door until the door has ended, each
    /// connection has ended, and each log has its seal. If it finds the stop flag set, it only ends its passes.
    /// It sets the flag after a fault.
    pub fn run(mut self) -> WorkerDone<D, C, J>
        ensures { WorkerGives D.tale D.faults C.tale J.noted self result }
    {
        self.word.wait(&self.rt);
        if finds_stop(&mut self.seat) {
            return self.stop();
        }
        self.serve()
    }
}
