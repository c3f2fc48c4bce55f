//! All that a server begins with.

ghost use Rattle.std.specs.Prelude.{◌≡◌, ℕ, List, ◌+◌, ◌≤◌, [], length, vec_capacity, IfOk, IfErr};
ghost use Rattle.guild_places.specs.Places.{AreDistinct};
ghost use Rattle.session_core.specs.declared.bot.Bot.{Bot};
ghost use Rattle.serve_stage.specs.Drafts.{IsDraft};
ghost use Rattle.serve_stage.specs.Stages.{AreLent, IsStage};

use crate::drafting::{Draft, Parts, drafted};
use crate::lent::Lent;
use crate::scripts::add_filed_scripts;
use crate::supply::Counts;
use crate::workers::add_housed_workers;
use file_script::Declared;
use gate_parts::{ActorPart, Posts, StartWord};
use serve_parts::{DoorPart, FilePart};
use std::alloc::{AllocError, Global};
use std::sync::Wait;
use stop_flag::{StopFlag, StopSeat};

/// All that a run begins with: what its parts share, and the parts themselves.
#[derive(Drop)]
pub struct Stage<S, D, C, R: Wait + Copy + Drop> {
    /// The posts of both actors.
    pub posts: Posts<R>,
    /// The word by which all parts begin.
    pub word: StartWord,
    /// The keeper of the stop flag.
    pub keeper: StopFlag,
    /// The seat of who starts the parts.
    pub seat: StopSeat,
    /// The parts of both actors.
    pub actors: Vec<ActorPart<R>>,
    /// The part of the script of each file, in order.
    pub scripts: Vec<FilePart<S, R>>,
    /// The part of the worker of each door, in order.
    pub workers: Vec<DoorPart<D, C, R>>,
}

// Room for the parts that have what a house lends.
#[derive(Drop)]
struct Room<S, D, C, R: Wait + Copy + Drop> {
    scripts: Vec<FilePart<S, R>>,
    workers: Vec<DoorPart<D, C, R>>,
}

// Makes room for so many parts.
fn make_room<S: Drop, D: Drop, C: Drop, R: Wait + Copy + Drop>(
    alloc: Global,
    counts: Counts,
) -> Result<Room<S, D, C, R>, AllocError>
    ensures empty { IfOk result (λ r. (r.scripts.items ≡ []) × (r.workers.items ≡ [])) }
    ensures room { IfOk result (λ r. (counts.scripts ≤ vec_capacity r.scripts) × (counts.workers ≤ vec_capacity r.workers)) }
{
    let scripts = Vec::with_capacity(alloc, usize::from(counts.scripts))?;
    let workers = Vec::with_capacity(alloc, usize::from(counts.workers))?;
    Ok(Room { scripts, workers })
}

// Gives the scripts their files, and the workers their doors and clocks. It does not allocate.
fn begin<S: Drop, D: Drop, C: Drop, R: Wait + Copy + Drop>(
    draft: Draft<R>,
    room: Room<S, D, C, R>,
    lent: Lent<S, D, C>,
) -> Stage<S, D, C, R>
    requires draft { (port : ℕ) × (bots : List Bot) × (guilds : List ℕ) × IsDraft port bots guilds (length lent.files.items) (length lent.doors.items) draft }
    requires clocks { length lent.clocks.items ≡ length lent.doors.items }
    requires empty { (room.scripts.items ≡ []) × (room.workers.items ≡ []) }
    requires room { (length lent.files.items ≤ vec_capacity room.scripts) × (length lent.doors.items ≤ vec_capacity room.workers) }
    ensures { (port : ℕ) (bots : List Bot) (guilds : List ℕ) → IsDraft port bots guilds (length lent.files.items) (length lent.doors.items) draft
        → IsStage port bots guilds lent result }
{
    let Draft {
        ground,
        supply,
        parts,
    } = draft;
    let (_, _, posts, word) = ground.into_parts();
    let (keeper, seat) = supply.into_flag();
    let Parts {
        actors,
        scripts: script_drafts,
        workers: worker_drafts,
    } = parts;
    let Room {
        mut scripts,
        mut workers,
    } = room;
    let Lent {
        files,
        doors,
        clocks,
    } = lent;
    add_filed_scripts(script_drafts, files, &mut scripts);
    add_housed_workers(worker_drafts, doors, clocks, &mut workers);
    Stage {
        posts,
        word,
        keeper,
        seat,
        actors,
        scripts,
        workers,
    }
}

/// Sets up the run of these bots and guilds, with a script for each file and a worker for each door and clock.
/// The URL of a worker has this port plus the worker's number.
///
/// # Errors
/// Out of memory, or a place at a hub that could not be had. All that was lent comes back.
pub fn set_stage<S: Drop, D: Drop, C: Drop, R: Wait + Copy + Drop>(
    rt: R,
    alloc: Global,
    port: u16,
    declared: &Declared,
    lent: Lent<S, D, C>,
) -> Result<Stage<S, D, C, R>, Lent<S, D, C>>
    requires counts { AreLent lent }
    requires ports { port + length lent.doors.items ≤ 65536 }
    requires guilds { AreDistinct declared.now.guilds.items }
    ensures stage { IfOk result (IsStage port declared.now.bots.items declared.now.guilds.items lent) }
    ensures back { IfErr result (λ back. back ≡ lent) }
{
    let counts = lent.counts();
    let Ok(room) = make_room(alloc, counts) else {
        return Err(lent);
    };
    match drafted(rt, alloc, port, declared, counts) {
        Ok(draft) => Ok(begin(draft, room, lent)),
        Err(AllocError) => {
            drop(room);
            Err(lent)
        }
    }
}
