//! Doors that a house lends and takes back.

ghost use Rattle.std.specs.Prelude.{◌≡◌, ◌+◌, ◌≤◌, [], map};
ghost use Rattle.std.specs.Vec.{vec_capacity};
ghost use Rattle.gate_outside.specs.Houses.{returned_door};
ghost use Rattle.house_loans.specs.Doors.{LendsDoors, PutsDoors};

use gate_outside::back::Back;
use gate_outside::faults::Fault;
use gate_outside::houses::House;
use team_run::add;

/// Asks for a door at each of `count` ports from `port` on, in order, until one is not given. Those that
/// were given stand in `doors`, each before its first call and for at most `accepts` links. The caller
/// has made the room.
///
/// # Errors
/// Why one was not given: it failed, or out of memory.
pub fn lend_doors<H: House>(
    house: &mut H,
    port: u16,
    accepts: u32,
    count: u8,
    doors: &mut Vec<H::Gate>,
) -> Result<(), Fault>
    requires ports { port + count ≤ 65536 }
    requires room { (doors.old.items ≡ []) × (count ≤ vec_capacity doors.old) }
    ensures lends { LendsDoors H.Gate.tale H.Gate.faults port count accepts
        (H.house_tale house.old) (H.house_tale house.new) doors.new.items result }
    ensures dial { H.tale house.new ≡ H.tale house.old }
    ensures dial_faults { H.faults house.new ≡ H.faults house.old }
{
    for index in 0..count {
        let door = house.door(port + u16::from(index), accepts)?;
        add(doors, door);
    }
    Ok(())
}

/// Puts the doors back, in order.
pub fn put_back_doors<H: House>(house: &mut H, mut doors: Vec<H::Gate>)
    ensures puts { PutsDoors
        (map (λ d. returned_door (H.Gate.tale d) (H.Gate.faults d)) doors.items)
        (H.house_tale house.old) (H.house_tale house.new) }
    ensures dial { H.tale house.new ≡ H.tale house.old }
    ensures dial_faults { H.faults house.new ≡ H.faults house.old }
{
    doors.reverse();
    while let Some(door) = doors.pop() {
        house.put_back(Back::Door(door));
    }
    doors.destroy_empty();
}
