//! Room for all parts of a run, which is made before the first is started.

ghost use Rattle.std.specs.Prelude.{IfOk};
ghost use Rattle.serve_run.specs.Rooms.{AreRoomy};

use crate::ends::{Ends, make_ends};
use serve_parts::{ServeDone, ServePart};
use std::alloc::{AllocError, Global};
use std::sync::Wait;

/// The most parts of a run: two actors, twelve scripts and four workers.
pub const PARTS: usize = 18;

/// Room for all parts of a run, for what they give, and for what each kind leaves.
#[derive(Drop)]
pub struct Rooms<S, D, C, R: Wait + Copy + Drop> {
    pub parts: Vec<ServePart<S, D, C, R>>,
    pub back: Vec<ServePart<S, D, C, R>>,
    pub dones: Vec<ServeDone<S, D, C, R>>,
    pub ends: Ends<S, D, C, R>,
}

/// Makes the room.
///
/// # Errors
/// Out of memory.
pub fn make_rooms<S: Drop, D: Drop, C: Drop, R: Wait + Copy + Drop>(
    alloc: Global,
) -> Result<Rooms<S, D, C, R>, AllocError>
    ensures { IfOk result (AreRoomy 18) }
{
    let parts = Vec::with_capacity(alloc, PARTS)?;
    let dones = Vec::with_capacity(alloc, PARTS)?;
    let ends = make_ends(alloc, PARTS)?;
    Ok(Rooms {
        parts,
        back: Vec::new(alloc),
        dones,
        ends,
    })
}
