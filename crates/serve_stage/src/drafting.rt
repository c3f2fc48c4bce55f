//! All parts of a run, of which none has yet what a house lends.

ghost use Rattle.std.specs.Prelude.{◌≡◌, ◌≤◌, ◌+◌, [], length, IfOk, OnOk};
ghost use Rattle.guild_places.specs.Places.{AreDistinct};
ghost use Rattle.serve_stage.specs.Drafts.{AreParts, IsDraft, IsSupply};

use crate::actors::add_actors;
use crate::scripts::{ScriptDraft, add_scripts};
use crate::supply::{ActorSupply, Counts, Opened, Supply, open_all};
use crate::workers::{WorkerDraft, add_workers};
use file_script::Declared;
use gate_parts::ActorPart;
use run_stage::Ground;
use std::alloc::{AllocError, Global};
use std::collections::VecDeque;
use std::sync::Wait;

/// All parts of a run. Scripts have no files yet, and workers no doors and no clocks.
#[derive(Drop)]
pub(crate) struct Parts<R: Wait + Copy + Drop> {
    pub actors: Vec<ActorPart<R>>,
    pub scripts: VecDeque<ScriptDraft<R>>,
    pub workers: VecDeque<WorkerDraft<R>>,
}

/// The parts, what they share, and what is left of what they were made from.
#[derive(Drop)]
pub(crate) struct Draft<R: Wait + Copy + Drop> {
    pub ground: Ground<R>,
    pub supply: Supply,
    pub parts: Parts<R>,
}

impl<R: Wait + Copy + Drop> Parts<R> {
    // No parts yet.
    fn none(alloc: Global) -> Parts<R>
        ensures actors { result.actors.items ≡ [] }
        ensures drafts { (result.scripts.items ≡ []) × (result.workers.items ≡ []) }
    {
        Parts {
            actors: Vec::new(alloc),
            scripts: VecDeque::new(alloc),
            workers: VecDeque::new(alloc),
        }
    }

    // Adds all parts. On an `Err` some may be missing.
    fn fill(
        &mut self,
        ground: &Ground<R>,
        port: u16,
        declared: &Declared,
        counts: Counts,
        actors: ActorSupply<R>,
        supply: &mut Supply,
    ) -> Result<(), AllocError>
        requires actors { self.old.actors.items ≡ [] }
        requires drafts { (self.old.scripts.items ≡ []) × (self.old.workers.items ≡ []) }
        requires ports { port + counts.workers ≤ 65536 }
        requires guilds { AreDistinct declared.now.guilds.items }
        requires supply { IsSupply ground.now.posts declared.now.guilds.items counts.scripts counts.workers actors supply.old }
        ensures seat { OnOk result (length supply.new.seats.left.items ≡ 1) }
        ensures parts { OnOk result (AreParts ground.now.posts port declared.now.bots.items declared.now.guilds.items counts.scripts counts.workers self.new) }
    {
        // The writers are the actors' afterwards.
        let writers = actors.writers.as_slice();
        add_scripts(ground, counts.scripts, writers, supply, &mut self.scripts)?;
        let workers = &mut self.workers;
        add_workers(ground, port, declared, counts.workers, supply, workers)?;
        add_actors(ground, actors, &mut supply.seats, &mut self.actors)?;
        Ok(())
    }
}

/// All parts of the run with so many scripts and workers.
///
/// # Errors
/// Out of memory, or a place at a hub that could not be had.
pub(crate) fn drafted<R: Wait + Copy + Drop>(
    rt: R,
    alloc: Global,
    port: u16,
    declared: &Declared,
    counts: Counts,
) -> Result<Draft<R>, AllocError>
    requires counts { (1 ≤ counts.workers) × (counts.scripts + counts.workers ≤ 16) }
    requires ports { port + counts.workers ≤ 65536 }
    requires guilds { AreDistinct declared.now.guilds.items }
    ensures { IfOk result (IsDraft port declared.now.bots.items declared.now.guilds.items counts.scripts counts.workers) }
{
    let guilds = declared.guilds.as_slice();
    let Opened {
        ground,
        actors,
        mut supply,
    } = open_all(rt, alloc, guilds, counts)?;
    let mut parts = Parts::none(alloc);
    match parts.fill(&ground, port, declared, counts, actors, &mut supply) {
        Ok(()) => Ok(Draft {
            ground,
            supply,
            parts,
        }),
        Err(error) => {
            drop(ground);
            drop(supply);
            drop(parts);
            Err(error)
        }
    }
}
