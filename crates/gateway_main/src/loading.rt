//! The command `load SEED`.

ghost use Rattle.std.specs.Prelude.{◌≡◌};
ghost use Rattle.house_loans.specs.Clocks.{LendsClocks};
ghost use Rattle.load_run.specs.Causes.{Loads, HasLoadCause, StartsParts};

use gate_outside::houses::House;
use gate_outside::spawners::Spawner;
use house_loans::{lend_clocks, put_back_clocks};
use load_parts::LoadPart;
use load_run::{LoadFault, load};
use std::alloc::Global;
use std::sync::Wait;
use std::time;

// How many clocks the parts of a load have.
const CLOCKS: usize = 15;

/// Runs the load with that seed, with clocks of the house, which it puts back.
pub fn run_load<R: Wait + time::Clock + Copy + Drop, H: House, S: Spawner<LoadPart<H::Time, R>>>(
    rt: R,
    alloc: Global,
    seed: u64,
    house: &mut H,
    sink: &mut H::Out,
    team: &mut S,
) -> Result<(), LoadFault>
where
    H::Time: Drop,
    ensures loads { Loads seed (H.Out.got sink.old) (H.Out.got sink.new) (H.Out.waits sink.old) result }
    ensures causes { HasLoadCause seed (S.faults team.old) (S.faults team.new) (H.Out.faults sink.old) (H.Out.faults sink.new) result }
    ensures starts { StartsParts (S.starts team.old) (S.starts team.new) result }
    ensures clocks { LendsClocks 15 (H.house_tale house.old) (H.house_tale house.new) }
    ensures dial { H.tale house.new ≡ H.tale house.old }
    ensures dial_faults { H.faults house.new ≡ H.faults house.old }
{
    let Ok(mut clocks) = Vec::with_capacity(alloc, CLOCKS) else {
        return Err(LoadFault::Memory);
    };
    if lend_clocks(house, CLOCKS, &mut clocks).is_err() {
        put_back_clocks(house, clocks);
        return Err(LoadFault::Memory);
    }
    let (clocks, loaded) = load(rt, alloc, seed, clocks, team, sink);
    put_back_clocks(house, clocks);
    loaded
}
