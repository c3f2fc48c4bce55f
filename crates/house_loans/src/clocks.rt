//! Clocks that a house lends and takes back.

ghost use Rattle.std.specs.Prelude.{◌≡◌, ◌<◌, ◌≤◌, [], length, map, All, OnOk, OnErr};
ghost use Rattle.std.specs.Vec.{vec_capacity};
ghost use Rattle.gate_outside.specs.Clocks.{IsNewClock};
ghost use Rattle.house_loans.specs.Clocks.{AsksClocks, PutsClocks};

use gate_outside::back::Back;
use gate_outside::houses::House;
use std::alloc::AllocError;
use team_run::add;

/// Asks for so many clocks. Out of memory those that were given stand in `clocks`, each before its first
/// answer. The caller has made the room.
///
/// # Errors
/// Out of memory.
pub fn lend_clocks<H: House>(
    house: &mut H,
    count: usize,
    clocks: &mut Vec<H::Time>,
) -> Result<(), AllocError>
    requires { (clocks.old.items ≡ []) × (count ≤ vec_capacity clocks.old) }
    ensures asks { AsksClocks (length clocks.new.items)
        (H.house_tale house.old) (H.house_tale house.new) }
    ensures fresh { All (λ c. IsNewClock (H.Time.tale c)) clocks.new.items }
    ensures each { OnOk result (length clocks.new.items ≡ count) }
    ensures fewer { OnErr result (length clocks.new.items < count) }
    ensures dial { H.tale house.new ≡ H.tale house.old }
    ensures dial_faults { H.faults house.new ≡ H.faults house.old }
{
    while clocks.len() < count {
        let clock = house.clock()?;
        add(clocks, clock);
    }
    Ok(())
}

/// Puts the clocks back, in order.
pub fn put_back_clocks<H: House>(house: &mut H, mut clocks: Vec<H::Time>)
    ensures puts { PutsClocks (map H.Time.tale clocks.items)
        (H.house_tale house.old) (H.house_tale house.new) }
    ensures dial { H.tale house.new ≡ H.tale house.old }
    ensures dial_faults { H.faults house.new ≡ H.faults house.old }
{
    clocks.reverse();
    while let Some(clock) = clocks.pop() {
        house.put_back(Back::Clock(clock));
    }
    clocks.destroy_empty();
}
