//! What a load is made of before the first part is started.

ghost use Rattle.std.specs.Prelude.{◌≡◌, length, IfOk, IfErr};
ghost use Rattle.load_stage.specs.Stages.{IsStage};
ghost use Rattle.load_run.specs.Sorted.{AreRoomy};

use crate::rooms::{Rooms, make_rooms};
use gate_outside::clocks::Clock;
use load_stage::{Stage, set_stage};
use std::alloc::Global;
use std::sync::Wait;

/// All parts of a load, and room for what they leave.
#[derive(Drop)]
pub struct Ready<C: Drop, R: Wait + Copy + Drop> {
    pub stage: Stage<C, R>,
    pub rooms: Rooms<C, R>,
}

/// Sets up the load with this seed, and makes the room for what its parts leave.
///
/// # Errors
/// Out of memory, or a place at a hub that could not be had. The clocks come back.
pub fn set_up<C: Clock + Drop, R: Wait + Copy + Drop>(
    rt: R,
    alloc: Global,
    seed: u64,
    clocks: Vec<C>,
) -> Result<Ready<C, R>, Vec<C>>
    requires { length clocks.items ≡ 15 }
    ensures stage { IfOk result (λ ready. IsStage seed clocks.items ready.stage) }
    ensures rooms { IfOk result (λ ready. AreRoomy 21 ready.rooms) }
    ensures back { IfErr result (λ back. back ≡ clocks) }
{
    let Ok(rooms) = make_rooms(alloc) else {
        return Err(clocks);
    };
    match set_stage(rt, alloc, seed, clocks) {
        Ok(stage) => Ok(Ready { stage, rooms }),
        Err(clocks) => {
            drop(rooms);
            Err(clocks)
        }
    }
}
