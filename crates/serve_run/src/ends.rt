//! What the parts of each kind have left.

ghost use Rattle.std.specs.Prelude.{◌≡◌, ◌≤◌, [], IfOk};
ghost use Rattle.serve_run.specs.Sorted.{HasRoom, IsEmpty, IsBare, HasSpace};

use file_script::ScriptFault;
use gate_ends::{ScriptEnd, WorkerEnd};
use gate_parts::ActorDone;
use std::alloc::{AllocError, Global};
use std::sync::Wait;

/// A script that has ended, without its source.
pub type FileEnd = ScriptEnd<ScriptFault>;

/// What goes back to the house.
#[derive(Drop)]
pub struct Returned<S, D, C> {
    /// The sources of the scripts.
    pub sources: Vec<S>,
    /// The doors of the workers.
    pub doors: Vec<D>,
    /// The clocks of the workers.
    pub clocks: Vec<C>,
}

/// What the parts of each kind have left, in their order, and what goes back to the house.
#[derive(Drop)]
pub struct Ends<S, D, C, R: Wait + Drop> {
    /// The actors.
    pub actors: Vec<ActorDone<R>>,
    /// The scripts.
    pub scripts: Vec<FileEnd>,
    /// The workers.
    pub workers: Vec<WorkerEnd>,
    /// What goes back.
    pub returned: Returned<S, D, C>,
}

// Room for what goes back.
fn make_returned<S: Drop, D: Drop, C: Drop>(
    alloc: Global,
    most: usize,
) -> Result<Returned<S, D, C>, AllocError>
    ensures { IfOk result (λ r. IsBare r × HasSpace most r) }
{
    let sources = Vec::with_capacity(alloc, most)?;
    let doors = Vec::with_capacity(alloc, most)?;
    let clocks = Vec::with_capacity(alloc, most)?;
    Ok(Returned {
        sources,
        doors,
        clocks,
    })
}

/// Empty lists with room for so many items each.
///
/// # Errors
/// Out of memory.
pub fn make_ends<S: Drop, D: Drop, C: Drop, R: Wait + Drop>(
    alloc: Global,
    most: usize,
) -> Result<Ends<S, D, C, R>, AllocError>
    ensures { IfOk result (λ ends. IsEmpty ends × HasRoom most ends) }
{
    let returned = make_returned(alloc, most)?;
    let actors = Vec::with_capacity(alloc, most)?;
    let scripts = Vec::with_capacity(alloc, most)?;
    let workers = Vec::with_capacity(alloc, most)?;
    Ok(Ends {
        actors,
        scripts,
        workers,
        returned,
    })
}
