//! What the actors, the scripts and the workers of a run have left is gathered for what is settled at its end.

ghost use Rattle.std.specs.Prelude.{◌≡◌, ◌++◌, ◌∷◌, [], map, flat_map, All, OnOk, IfOk};
ghost use Rattle.gate_ends.specs.Done.{HasSentAll, HasServed};
ghost use Rattle.gate_ends.specs.Gathers.{Gathers};

use crate::ending::{ScriptEnd, WorkerEnd};
use crate::reports::reports_of;
use edit_post::SendPass;
use gate_parts::ActorDone;
use guild_actor::ActReport;
use guild_hub::HubReader;
use snowflake_id::Snowflake;
use std::alloc::{AllocError, Global};
use std::sync::Wait;

/// The parts of a run that have ended, but for its clients.
pub struct Senders<R: Wait + Drop, E: Drop> {
    /// The actors.
    pub actors: Vec<ActorDone<R>>,
    /// The scripts.
    pub scripts: Vec<ScriptEnd<E>>,
    /// The workers.
    pub workers: Vec<WorkerEnd>,
}

impl<R: Wait + Drop, E: Drop> Drop for Senders<R, E> {
    fn drop(self) {
        let Senders {
            actors,
            scripts,
            workers,
        } = self;
        drop(actors);
        drop(scripts);
        drop(workers);
    }
}

/// What is settled at the end of a run.
#[derive(Drop)]
pub struct Left<R: Wait + Drop> {
    /// The report of the first actor.
    pub first: ActReport<R>,
    /// The report of the second actor.
    pub second: ActReport<R>,
    /// The passes of each sender: of the scripts, in order, and then of the workers.
    pub passes: Vec<Vec<SendPass>>,
    /// The readers of the workers, in order.
    pub readers: Vec<(Snowflake, HubReader)>,
}

// Adds the passes of the scripts, in order.
fn add_scripts<E: Drop>(
    passes: &mut Vec<Vec<SendPass>>,
    mut scripts: Vec<ScriptEnd<E>>,
) -> Result<(), AllocError>
    ensures { OnOk result (All HasSentAll scripts.items × (passes.new.items ≡ passes.old.items ++ map (λ e. e.passes) scripts.items)) }
{
    scripts.reverse();
    while let Some(end) = scripts.pop() {
        passes.push(end.into_passes()?)?;
    }
    Ok(())
}

// Moves the readers of a worker to those of all.
fn add_readers(
    readers: &mut Vec<(Snowflake, HubReader)>,
    mut more: Vec<(Snowflake, HubReader)>,
) -> Result<(), AllocError>
    ensures { OnOk result (readers.new.items ≡ readers.old.items ++ more.items) }
{
    more.reverse();
    while let Some(reader) = more.pop() {
        readers.push(reader)?;
    }
    Ok(())
}

// Adds what a worker has left that has served.
fn add_worker(
    passes: &mut Vec<Vec<SendPass>>,
    readers: &mut Vec<(Snowflake, HubReader)>,
    end: WorkerEnd,
) -> Result<(), AllocError>
    ensures { OnOk result (HasServed end × (passes.new.items ≡ passes.old.items ++ end.passes ∷ []) × (readers.new.items ≡ readers.old.items ++ end.readers.items)) }
{
    let (its_readers, its_passes) = end.into_readers()?;
    add_readers(readers, its_readers)?;
    passes.push(its_passes)?;
    Ok(())
}

// Adds what all workers have left, in order.
fn add_workers(
    passes: &mut Vec<Vec<SendPass>>,
    readers: &mut Vec<(Snowflake, HubReader)>,
    mut workers: Vec<WorkerEnd>,
) -> Result<(), AllocError>
    ensures { OnOk result (All HasServed workers.items × (passes.new.items ≡ passes.old.items ++ map (λ e. e.passes) workers.items) × (readers.new.items ≡ readers.old.items ++ flat_map (λ e. e.readers.items) workers.items)) }
{
    workers.reverse();
    while let Some(end) = workers.pop() {
        add_worker(passes, readers, end)?;
    }
    Ok(())
}

impl<R: Wait + Drop, E: Drop> Senders<R, E> {
    /// What they have left, if each has run to its end.
    ///
    /// # Errors
    /// Out of memory, or one of them has stopped or ended by a fault. Who gathers has answered faults before.
    pub fn gather(self, alloc: Global) -> Result<Left<R>, AllocError>
        ensures { IfOk result (Gathers self) }
    {
        let Senders {
            actors,
            scripts,
            workers,
        } = self;
        let mut passes = Vec::new(alloc);
        let mut readers = Vec::new(alloc);
        let (first, second) = reports_of(actors)?;
        add_scripts(&mut passes, scripts)?;
        add_workers(&mut passes, &mut readers, workers)?;
        Ok(Left {
            first,
            second,
            passes,
            readers,
        })
    }
}
