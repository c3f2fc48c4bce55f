//! The doors of the workers of a load, and the dials of its clients.

ghost use Rattle.std.specs.Prelude.{◌≡◌, ◌∷◌, ◌++◌, [], map, IfOk};
ghost use Rattle.std.specs.List.{range_with_len};
ghost use Rattle.std.specs.Global.{Global as AGlobal};
ghost use Rattle.crossbeam_queue.specs.SegTies.{SegId};
ghost use Rattle.thread_outside.specs.DialledDoors.{new_dialled, new_door_dial};
ghost use Rattle.load_stage.specs.Doors.{HasDoors};

use crate::turns::in_turn;
use std::alloc::{AllocError, Global};
use std::collections::VecDeque;
use std::sync::Wait;
use thread_outside::dialled_door::DialledDoor;
use thread_outside::door_dial::DoorDial;

/// How many clients dial each door.
const DIALS: u8 = 4;

/// The doors, and the dials in the order of the clients.
#[derive(Drop)]
pub(crate) struct Doors<R: Wait + Copy + Drop> {
    pub doors: VecDeque<DialledDoor<R>>,
    pub dials: VecDeque<DoorDial<R>>,
}

// A door that nobody has dialled, and its dials.
fn open_door<R: Wait + Copy + Drop>(
    rt: R,
    alloc: Global,
) -> Result<(DialledDoor<R>, Vec<DoorDial<R>>), AllocError>
    ensures door { IfOk result (λ r. r.0 ≡ new_dialled r.0.calls.queue 4 []) }
    ensures dials { IfOk result (λ r. r.1.items ≡ map (new_door_dial r.0.calls.queue) (range_with_len 0 4)) }
{
    let (door, dials) = DialledDoor::open(rt, alloc, DIALS, Vec::new(alloc))?;
    Ok((door, dials))
}

// Adds a door that nobody has dialled, and gives its dials.
fn add_door<R: Wait + Copy + Drop>(
    rt: R,
    alloc: Global,
    doors: &mut VecDeque<DialledDoor<R>>,
) -> Result<Vec<DoorDial<R>>, AllocError>
    ensures { IfOk result (λ dials. (queue : SegId AGlobal)
        × (doors.new.items ≡ doors.old.items ++ new_dialled queue 4 [] ∷ [])
        × (dials.items ≡ map (new_door_dial queue) (range_with_len 0 4))) }
{
    let (door, dials) = open_door(rt, alloc)?;
    doors.push_back(door)?;
    Ok(dials)
}

// Adds the three doors, and gives the dials in the order of the clients.
fn add_doors<R: Wait + Copy + Drop>(
    rt: R,
    alloc: Global,
    doors: &mut VecDeque<DialledDoor<R>>,
) -> Result<VecDeque<DoorDial<R>>, AllocError>
    requires { doors.old.items ≡ [] }
    ensures { IfOk result (λ dials. HasDoors doors.new.items dials.items) }
{
    let first = add_door(rt, alloc, doors)?;
    let second = add_door(rt, alloc, doors)?;
    let third = add_door(rt, alloc, doors)?;
    let dials = in_turn(alloc, first, second, third)?;
    Ok(dials)
}

/// Opens the doors, which nobody has dialled.
///
/// # Errors
/// Out of memory.
pub(crate) fn open_doors<R: Wait + Copy + Drop>(
    rt: R,
    alloc: Global,
) -> Result<Doors<R>, AllocError>
    ensures { IfOk result (λ d. HasDoors d.doors.items d.dials.items) }
{
    let mut doors = VecDeque::new(alloc);
    match add_doors(rt, alloc, &mut doors) {
        Ok(dials) => Ok(Doors { doors, dials }),
        Err(error) => {
            drop(doors);
            Err(error)
        }
    }
}
