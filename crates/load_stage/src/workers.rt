//! The parts of the three workers.

ghost use Rattle.std.specs.Prelude.{◌≡◌, ◌≤◌, [], length, drop, vec_capacity, All, IfOk, OnOk};
ghost use Rattle.world_law.specs.Model.{first_worker};
ghost use Rattle.worker_core.specs.Represents.{Represents};
ghost use Rattle.run_stage.specs.Dealing.{AreFrom};
ghost use Rattle.run_stage.specs.Posts.{ArePassesOf};
ghost use Rattle.run_stage.specs.Seats.{HasSeats};
ghost use Rattle.load_stage.specs.Bots.{load_bots, worker_url};
ghost use Rattle.load_stage.specs.Drafts.{CanBegin, IsWorkerDraft, IsWorkerOf, IsClockedWorker};
ghost use Rattle.load_stage.specs.Guilds.{guild_ids};

use crate::bots::{bots, worker_url};
use edit_post::SendPass;
use gate_parts::WorkerPart;
use guild_hub::HubReader;
use load_client::NameGoal;
use load_parts::DoorWorker;
use run_stage::{Ground, Seats, take_next};
use snowflake_id::Snowflake;
use std::alloc::{AllocError, Global};
use std::collections::VecDeque;
use std::sync::Wait;
use stop_flag::StopSeat;
use thread_outside::dialled_door::DialledDoor;
use thread_outside::kept_notes::KeptNotes;
use worker_core::Worker;

/// How many workers a load has.
const WORKERS: u8 = 3;

/// A worker's part that has no clock yet.
#[derive(Drop)]
pub(crate) struct WorkerDraft<R: Wait + Copy + Drop> {
    pub ground: Ground<R>,
    pub worker: Worker,
    pub door: DialledDoor<R>,
    pub readers: Vec<(Snowflake, HubReader)>,
    pub passes: Vec<SendPass>,
    pub seat: StopSeat,
}

/// What workers alone have: the doors, and the readers of each worker.
#[derive(Drop)]
pub(crate) struct Served<R: Wait + Copy + Drop> {
    pub doors: VecDeque<DialledDoor<R>>,
    pub readers: VecDeque<Vec<(Snowflake, HubReader)>>,
}

// The worker with this number, of all bots and guilds of a load.
fn worker(alloc: Global, number: u8) -> Result<Worker, AllocError>
    ensures { IfOk result (λ worker. Represents worker (first_worker load_bots guild_ids number (worker_url number))) }
{
    let url = worker_url(alloc, number)?;
    let bots = bots(alloc)?;
    let goal = NameGoal::of_load(alloc)?;
    Worker::new(alloc, number, url, bots, goal.guilds.as_slice())
}

// The worker with this number, and its share of what the parts of a load share.
fn begun<R: Wait + Copy + Drop>(
    ground: &Ground<R>,
    number: u8,
) -> Result<(Ground<R>, Worker), AllocError>
    ensures posts { IfOk result (λ r. r.0.posts ≡ ground.now.posts) }
    ensures worker { IfOk result (λ r. Represents r.1 (first_worker load_bots guild_ids number (worker_url number))) }
{
    let worker = worker(ground.alloc, number)?;
    match ground.share() {
        Ok(share) => Ok((share, worker)),
        Err(error) => {
            drop(worker);
            Err(error)
        }
    }
}

/// Adds all workers, without clocks.
///
/// # Errors
/// Out of memory.
pub(crate) fn add_workers<R: Wait + Copy + Drop>(
    ground: &Ground<R>,
    served: &mut Served<R>,
    passes: &mut VecDeque<Vec<SendPass>>,
    seats: &mut Seats,
    drafts: &mut VecDeque<WorkerDraft<R>>,
) -> Result<(), AllocError>
    requires served { (length served.old.doors.items ≡ 3) × (length served.old.readers.items ≡ 3) }
    requires passes { AreFrom (ArePassesOf ground.now.posts) 4 3 passes.old.items }
    requires seats { HasSeats 22 6 16 seats.old }
    requires none { drafts.old.items ≡ [] }
    ensures seats { OnOk result (HasSeats 22 9 13 seats.new × (seats.new.keeper ≡ seats.old.keeper)) }
    ensures drafts { OnOk result (AreFrom (IsWorkerDraft ground.now.posts seats.old.keeper.flag served.old.doors.items served.old.readers.items) 0 3 drafts.new.items) }
{
    for number in 0..WORKERS {
        let (share, worker) = begun(ground, number)?;
        let door = take_next(&mut served.doors);
        let its_readers = take_next(&mut served.readers);
        let its_passes = take_next(passes);
        let seat = seats.take_next();
        drafts.push_back(WorkerDraft {
            ground: share,
            worker,
            door,
            readers: its_readers,
            passes: its_passes,
            seat,
        })?;
    }
    Ok(())
}

// The part of a worker that gets this clock. It does not allocate.
fn worker_part<C: Drop, R: Wait + Copy + Drop>(draft: WorkerDraft<R>, clock: C) -> DoorWorker<C, R>
    requires { CanBegin draft }
    ensures made { IsWorkerOf draft result }
    ensures clock { result.clock ≡ clock }
{
    let WorkerDraft {
        ground,
        worker,
        door,
        readers,
        passes,
        seat,
    } = draft;
    let (rt, alloc, posts, word) = ground.into_parts();
    WorkerPart {
        rt,
        alloc,
        worker,
        door,
        clock,
        readers,
        posts,
        passes,
        notes: KeptNotes::new(alloc),
        word,
        seat,
    }
}

/// The parts of all workers, which take their clocks from the front of these. There is room for the parts,
/// and it does not allocate.
pub(crate) fn clocked_workers<C: Drop, R: Wait + Copy + Drop>(
    mut drafts: VecDeque<WorkerDraft<R>>,
    clocks: &mut VecDeque<C>,
    parts: &mut Vec<DoorWorker<C, R>>,
)
    requires drafts { (length drafts.items ≡ 3) × All CanBegin drafts.items }
    requires clocks { 3 ≤ length clocks.old.items }
    requires room { (parts.old.items ≡ []) × (3 ≤ vec_capacity parts.old) }
    ensures clocks { clocks.new.items ≡ drop 3 clocks.old.items }
    ensures parts { AreFrom (IsClockedWorker drafts.items clocks.old.items) 0 3 parts.new.items }
{
    for number in 0..WORKERS {
        // Only the loop's invariant speaks of the number.
        let _ = number;
        let draft = take_next(&mut drafts);
        let clock = take_next(clocks);
        parts.push_reserved(worker_part(draft, clock));
    }
}
