//! All parts of a load, of which none has a clock yet.

ghost use Rattle.std.specs.Prelude.{◌≡◌, [], IfOk, OnOk};
ghost use Rattle.run_stage.specs.Seats.{HasSeats};
ghost use Rattle.load_stage.specs.Drafts.{AreParts, IsDraft, IsSupply};

use crate::actors::add_actors;
use crate::clients::{ClientDraft, add_clients};
use crate::scripts::add_scripts;
use crate::supply::{Supply, open_all};
use crate::workers::{WorkerDraft, add_workers};
use gate_parts::{ActorPart, ScriptPart};
use run_stage::{Ground, Seats};
use std::alloc::{AllocError, Global};
use std::collections::VecDeque;
use std::sync::Wait;

/// How many seats there are: of two actors, four scripts, three workers, twelve clients, and of who starts
/// them.
const SEATS: u8 = 22;

/// All parts of a load. Workers and clients have no clocks yet.
#[derive(Drop)]
pub(crate) struct Parts<R: Wait + Copy + Drop> {
    pub actors: Vec<ActorPart<R>>,
    pub scripts: Vec<ScriptPart<R>>,
    pub workers: VecDeque<WorkerDraft<R>>,
    pub clients: VecDeque<ClientDraft<R>>,
}

/// The parts of a load, what they share, and the seats that are left.
#[derive(Drop)]
pub(crate) struct Draft<R: Wait + Copy + Drop> {
    pub ground: Ground<R>,
    pub seats: Seats,
    pub parts: Parts<R>,
}

impl<R: Wait + Copy + Drop> Parts<R> {
    // No parts of a load yet.
    fn none(alloc: Global) -> Parts<R>
        ensures parts { (result.actors.items ≡ []) × (result.scripts.items ≡ []) }
        ensures drafts { (result.workers.items ≡ []) × (result.clients.items ≡ []) }
    {
        Parts {
            actors: Vec::new(alloc),
            scripts: Vec::new(alloc),
            workers: VecDeque::new(alloc),
            clients: VecDeque::new(alloc),
        }
    }

    // Adds all parts of the load. On an `Err` some may be missing.
    fn fill(
        &mut self,
        ground: &Ground<R>,
        seed: u64,
        supply: Supply<R>,
        seats: &mut Seats,
    ) -> Result<(), AllocError>
        requires parts { (self.old.actors.items ≡ []) × (self.old.scripts.items ≡ []) }
        requires drafts { (self.old.workers.items ≡ []) × (self.old.clients.items ≡ []) }
        requires supply { IsSupply ground.now.posts supply }
        requires seats { HasSeats 22 0 22 seats.old }
        ensures seats { OnOk result (HasSeats 22 21 1 seats.new × (seats.new.keeper ≡ seats.old.keeper)) }
        ensures parts { OnOk result (AreParts ground.now.posts seats.old.keeper.flag seed self.new) }
    {
        let Supply {
            takers,
            writers,
            mut passes,
            mut served,
            mut dials,
        } = supply;
        add_actors(ground, takers, writers, seats, &mut self.actors)?;
        let guilds = served.readers[0].as_slice();
        add_scripts(ground, seed, guilds, &mut passes, seats, &mut self.scripts)?;
        add_workers(ground, &mut served, &mut passes, seats, &mut self.workers)?;
        add_clients(ground, &mut dials, seats, &mut self.clients)?;
        Ok(())
    }
}

/// All parts of the load with this seed.
///
/// # Errors
/// Out of memory, or a place at a hub that could not be had.
pub(crate) fn drafted<R: Wait + Copy + Drop>(
    rt: R,
    alloc: Global,
    seed: u64,
) -> Result<Draft<R>, AllocError>
    ensures { IfOk result (IsDraft seed) }
{
    let (ground, supply) = open_all(rt, alloc)?;
    let mut seats = Seats::all(alloc, SEATS)?;
    let mut parts = Parts::none(alloc);
    match parts.fill(&ground, seed, supply, &mut seats) {
        Ok(()) => Ok(Draft {
            ground,
            seats,
            parts,
        }),
        Err(error) => {
            drop(ground);
            drop(seats);
            drop(parts);
            Err(error)
        }
    }
}
