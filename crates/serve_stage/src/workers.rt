//! The parts of the workers.

ghost use Rattle.std.specs.Prelude.{◌≡◌, ◌≤◌, ◌+◌, ◌-◌, [], length, drop, vec_capacity, All, IfOk, OnOk};
ghost use Rattle.world_law.specs.Model.{first_worker};
ghost use Rattle.worker_core.specs.Represents.{Represents};
ghost use Rattle.run_stage.specs.Dealing.{AreFrom};
ghost use Rattle.serve_stage.specs.Drafts.{IsWorkerDraft, IsWorkerOf, IsHousedWorker, MayWork};
ghost use Rattle.serve_stage.specs.Urls.{worker_url};

use crate::supply::Supply;
use crate::urls::worker_url;
use edit_post::SendPass;
use file_script::Declared;
use gate_parts::WorkerPart;
use guild_hub::HubReader;
use run_stage::{Ground, take_next};
use serve_parts::DoorPart;
use session_core::copies_of;
use snowflake_id::Snowflake;
use std::alloc::{AllocError, Global};
use std::collections::VecDeque;
use std::sync::Wait;
use stop_flag::StopSeat;
use thread_outside::quiet_notes::QuietNotes;
use worker_core::Worker;

/// A worker's part that has no door and no clock yet.
#[derive(Drop)]
pub(crate) struct WorkerDraft<R: Wait + Copy + Drop> {
    pub ground: Ground<R>,
    pub worker: Worker,
    pub readers: Vec<(Snowflake, HubReader)>,
    pub passes: Vec<SendPass>,
    pub seat: StopSeat,
}

// The worker with this number, of all bots and guilds.
fn worker(alloc: Global, port: u16, declared: &Declared, number: u8) -> Result<Worker, AllocError>
    requires { port + number ≤ 65535 }
    ensures { IfOk result (λ worker. Represents worker (first_worker declared.now.bots.items declared.now.guilds.items number (worker_url port number))) }
{
    let url = worker_url(alloc, port, number)?;
    let bots = copies_of(alloc, declared.bots.as_slice())?;
    Worker::new(alloc, number, url, bots, declared.guilds.as_slice())
}

// The worker with this number and a share of what all parts share.
fn begun<R: Wait + Copy + Drop>(
    ground: &Ground<R>,
    port: u16,
    declared: &Declared,
    number: u8,
) -> Result<(Ground<R>, Worker), AllocError>
    requires { port + number ≤ 65535 }
    ensures posts { IfOk result (λ r. r.0.posts ≡ ground.now.posts) }
    ensures worker { IfOk result (λ r. Represents r.1 (first_worker declared.now.bots.items declared.now.guilds.items number (worker_url port number))) }
{
    let worker = worker(ground.alloc, port, declared, number)?;
    match ground.share() {
        Ok(share) => Ok((share, worker)),
        Err(error) => {
            drop(worker);
            Err(error)
        }
    }
}

/// Adds so many workers, without doors and clocks.
///
/// # Errors
/// Out of memory.
pub(crate) fn add_workers<R: Wait + Copy + Drop>(
    ground: &Ground<R>,
    port: u16,
    declared: &Declared,
    count: u8,
    supply: &mut Supply,
    drafts: &mut VecDeque<WorkerDraft<R>>,
) -> Result<(), AllocError>
    requires ports { port + count ≤ 65536 }
    requires passes { count ≤ length supply.old.passes.items }
    requires readers { count ≤ length supply.old.readers.items }
    requires seats { count ≤ length supply.old.seats.left.items }
    requires none { drafts.old.items ≡ [] }
    ensures seats { OnOk result (length supply.new.seats.left.items ≡ length supply.old.seats.left.items - count) }
    ensures drafts { OnOk result (AreFrom (IsWorkerDraft ground.now.posts supply.old.passes.items supply.old.readers.items declared.now.bots.items declared.now.guilds.items port) 0 count drafts.new.items) }
{
    for number in 0..count {
        let (share, worker) = begun(ground, port, declared, number)?;
        let readers = take_next(&mut supply.readers);
        let passes = take_next(&mut supply.passes);
        let seat = supply.seats.take_next();
        drafts.push_back(WorkerDraft {
            ground: share,
            worker,
            readers,
            passes,
            seat,
        })?;
    }
    Ok(())
}

// The part of a worker. It does not allocate.
fn worker_part<D: Drop, C: Drop, R: Wait + Copy + Drop>(
    draft: WorkerDraft<R>,
    door: D,
    clock: C,
) -> DoorPart<D, C, R>
    requires { MayWork draft }
    ensures made { IsWorkerOf draft result }
    ensures own { (result.door ≡ door) × (result.clock ≡ clock) }
{
    let WorkerDraft {
        ground,
        worker,
        readers,
        passes,
        seat,
    } = draft;
    let (rt, alloc, posts, word) = ground.into_parts();
    WorkerPart {
        rt,
        alloc,
        worker,
        door,
        clock,
        readers,
        posts,
        passes,
        notes: QuietNotes,
        word,
        seat,
    }
}

/// Adds the parts of all workers, each with the next of these doors and the next of these clocks. There is
/// room for the parts, and it does not allocate.
pub(crate) fn add_housed_workers<D: Drop, C: Drop, R: Wait + Copy + Drop>(
    mut drafts: VecDeque<WorkerDraft<R>>,
    doors: Vec<D>,
    clocks: Vec<C>,
    parts: &mut Vec<DoorPart<D, C, R>>,
)
    requires drafts { (length drafts.items ≡ length doors.items) × All MayWork drafts.items }
    requires clocks { length clocks.items ≡ length doors.items }
    requires room { (parts.old.items ≡ []) × (length doors.items ≤ vec_capacity parts.old) }
    ensures { AreFrom (IsHousedWorker drafts.items doors.items clocks.items) 0 (length doors.items) parts.new.items }
{
    let count = doors.len();
    let mut doors_left = VecDeque::from(doors);
    let mut clocks_left = VecDeque::from(clocks);
    for number in 0..count {
        // Only the loop's invariant speaks of the number.
        let _ = number;
        let draft = take_next(&mut drafts);
        let door = take_next(&mut doors_left);
        let clock = take_next(&mut clocks_left);
        parts.push_reserved(worker_part(draft, door, clock));
    }
}
