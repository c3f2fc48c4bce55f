//! All that a load begins with.

ghost use Rattle.std.specs.Prelude.{◌≡◌, ℕ, ◌≤◌, [], length, drop, vec_capacity, All, IfOk, IfErr};
ghost use Rattle.run_stage.specs.Dealing.{AreFrom};
ghost use Rattle.load_stage.specs.Drafts.{CanBegin, HasNotFailed, IsClockedClient, IsClockedWorker, IsDraft};
ghost use Rattle.load_stage.specs.Stages.{IsStage};

use crate::clients::{ClientDraft, clocked_clients};
use crate::drafting::{Draft, Parts, drafted};
use crate::workers::{WorkerDraft, clocked_workers};
use gate_outside::clocks::Clock;
use gate_parts::{ActorPart, Posts, ScriptPart, StartWord};
use load_parts::{ClientPart, DoorWorker};
use std::alloc::{AllocError, Global};
use std::collections::VecDeque;
use std::sync::Wait;
use stop_flag::{StopFlag, StopSeat};

/// All that a load begins with: what its parts share, and the parts themselves.
#[derive(Drop)]
pub struct Stage<C, R: Wait + Copy + Drop> {
    /// The posts of the load's two actors.
    pub posts: Posts<R>,
    /// The word by which the load begins.
    pub word: StartWord,
    /// The keeper of the load's stop flag.
    pub keeper: StopFlag,
    /// The seat of who starts the load.
    pub seat: StopSeat,
    /// The parts of the two actors.
    pub actors: Vec<ActorPart<R>>,
    /// The parts of the four scripts.
    pub scripts: Vec<ScriptPart<R>>,
    /// The parts of the three workers.
    pub workers: Vec<DoorWorker<C, R>>,
    /// The parts of the twelve clients.
    pub clients: Vec<ClientPart<C, R>>,
}

// Room for the parts that have clocks.
#[derive(Drop)]
struct Room<C, R: Wait + Copy + Drop> {
    workers: Vec<DoorWorker<C, R>>,
    clients: Vec<ClientPart<C, R>>,
}

// Makes room for the parts that have clocks.
fn make_room<C: Drop, R: Wait + Copy + Drop>(alloc: Global) -> Result<Room<C, R>, AllocError>
    ensures empty { IfOk result (λ r. (r.workers.items ≡ []) × (r.clients.items ≡ [])) }
    ensures room { IfOk result (λ r. (3 ≤ vec_capacity r.workers) × (12 ≤ vec_capacity r.clients)) }
{
    let workers = Vec::with_capacity(alloc, 3)?;
    let clients = Vec::with_capacity(alloc, 12)?;
    Ok(Room { workers, clients })
}

impl<C: Drop, R: Wait + Copy + Drop> Room<C, R> {
    // Adds the parts of all workers and clients, with the clocks. It does not allocate.
    fn add_clocked(
        &mut self,
        workers: VecDeque<WorkerDraft<R>>,
        clients: VecDeque<ClientDraft<R>>,
        clocks: Vec<C>,
    )
        requires workers { (length workers.items ≡ 3) × All CanBegin workers.items }
        requires clients { (length clients.items ≡ 12) × All HasNotFailed clients.items }
        requires clocks { length clocks.items ≡ 15 }
        requires empty { (self.old.workers.items ≡ []) × (self.old.clients.items ≡ []) }
        requires room { (3 ≤ vec_capacity self.old.workers) × (12 ≤ vec_capacity self.old.clients) }
        ensures workers { AreFrom (IsClockedWorker workers.items clocks.items) 0 3 self.new.workers.items }
        ensures clients { AreFrom (IsClockedClient clients.items (drop 3 clocks.items)) 0 12 self.new.clients.items }
    {
        let mut left = VecDeque::from(clocks);
        clocked_workers(workers, &mut left, &mut self.workers);
        clocked_clients(clients, &mut left, &mut self.clients);
    }
}

// Gives the workers and clients their clocks. It does not allocate.
fn begin<C: Drop, R: Wait + Copy + Drop>(
    draft: Draft<R>,
    mut room: Room<C, R>,
    clocks: Vec<C>,
) -> Stage<C, R>
    requires draft { (seed : ℕ) × IsDraft seed draft }
    requires clocks { length clocks.items ≡ 15 }
    requires empty { (room.workers.items ≡ []) × (room.clients.items ≡ []) }
    requires room { (3 ≤ vec_capacity room.workers) × (12 ≤ vec_capacity room.clients) }
    ensures { (seed : ℕ) → IsDraft seed draft → IsStage seed clocks.items result }
{
    let Draft {
        ground,
        mut seats,
        parts,
    } = draft;
    let Parts {
        actors,
        scripts,
        workers,
        clients,
    } = parts;
    room.add_clocked(workers, clients, clocks);
    let Room { workers, clients } = room;
    let (_, _, posts, word) = ground.into_parts();
    let seat = seats.take_next();
    let keeper = seats.into_keeper();
    Stage {
        posts,
        word,
        keeper,
        seat,
        actors,
        scripts,
        workers,
        clients,
    }
}

/// Sets up the load with this seed. The first three clocks go to the workers, the others to the clients.
///
/// # Errors
/// Out of memory, or a place at a hub that could not be had. The clocks come back.
pub fn set_stage<C: Clock + Drop, R: Wait + Copy + Drop>(
    rt: R,
    alloc: Global,
    seed: u64,
    clocks: Vec<C>,
) -> Result<Stage<C, R>, Vec<C>>
    requires { length clocks.items ≡ 15 }
    ensures stage { IfOk result (IsStage seed clocks.items) }
    ensures back { IfErr result (λ back. back ≡ clocks) }
{
    let Ok(room) = make_room(alloc) else {
        return Err(clocks);
    };
    match drafted(rt, alloc, seed) {
        Ok(draft) => Ok(begin(draft, room, clocks)),
        Err(AllocError) => {
            drop(room);
            Err(clocks)
        }
    }
}
