//! Room for all parts of a load, which is made before the first is started.

ghost use Rattle.std.specs.Prelude.{◌≡◌, ◌≤◌, [], IfOk};
ghost use Rattle.std.specs.Vec.{vec_capacity};
ghost use Rattle.load_run.specs.Sorted.{HasRoom, IsEmpty, AreRoomy};

use crate::sorting::Ends;
use load_parts::{LoadDone, LoadPart};
use std::alloc::{AllocError, Global};
use std::sync::Wait;

// How many parts a load has.
pub const PARTS: usize = 21;

/// Room for all parts of a load, for what they give, and for what each kind leaves.
#[derive(Drop)]
pub struct Rooms<C: Drop, R: Wait + Copy + Drop> {
    pub parts: Vec<LoadPart<C, R>>,
    pub back: Vec<LoadPart<C, R>>,
    pub dones: Vec<LoadDone<C, R>>,
    pub ends: Ends<C, R>,
}

// Room for what each kind of parts leaves.
fn make_ends<C: Drop, R: Wait + Copy + Drop>(alloc: Global) -> Result<Ends<C, R>, AllocError>
    ensures { IfOk result (λ ends. IsEmpty ends × HasRoom 21 ends) }
{
    Ok(Ends {
        actors: Vec::with_capacity(alloc, PARTS)?,
        scripts: Vec::with_capacity(alloc, PARTS)?,
        workers: Vec::with_capacity(alloc, PARTS)?,
        clients: Vec::with_capacity(alloc, PARTS)?,
        clocks: Vec::with_capacity(alloc, PARTS)?,
    })
}

/// Makes the room.
pub fn make_rooms<C: Drop, R: Wait + Copy + Drop>(alloc: Global) -> Result<Rooms<C, R>, AllocError>
    ensures { IfOk result (AreRoomy 21) }
{
    let parts = Vec::with_capacity(alloc, PARTS)?;
    let dones = Vec::with_capacity(alloc, PARTS)?;
    let ends = make_ends(alloc)?;
    Ok(Rooms {
        parts,
        back: Vec::new(alloc),
        dones,
        ends,
    })
}
