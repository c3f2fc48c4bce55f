//! The command `serve PORT WORKERS ACCEPTS FILES`, over a house and a team.

ghost use Rattle.std.specs.Prelude.{◌≡◌, ◌+◌, ◌≤◌, length, map, string_bytes};
ghost use Rattle.serve_run.specs.Serving.{ServesFiles, sink_tale, team_tale};

use crate::fault::ServeFault;
use crate::lending::{lend_all, put_back_all};
use crate::loan_rooms::LoanRooms;
use crate::service::Served;
use crate::serving_lent::serve_lent;
use gate_outside::doors::Door;
use gate_outside::houses::House;
use gate_outside::spawners::Spawner;
use serve_parts::ServePart;
use std::alloc::Global;
use std::sync::Wait;
use std::time;

/// Serves those who connect to the ports from `port` on, while the scripts of the files run, with sources, doors and
/// clocks of the house, which all go back.
///
/// # Errors
/// By which fault the run ended. If the house does not lend all that is needed, no part is started and nothing is
/// written: `Read` if it could not give the source of a file, and `Door` if it could not give a door.
pub fn run_serve<
    R: Wait + time::Clock + Copy + Drop,
    H: House,
    T: Spawner<ServePart<H::In, H::Gate, H::Time, R>>,
>(
    rt: R,
    alloc: Global,
    port: u16,
    workers: u8,
    accepts: u32,
    files: &[String],
    house: &mut H,
    sink: &mut H::Out,
    team: &mut T,
) -> Result<(), ServeFault>
where
    H::In: Drop,
    H::Gate: Drop,
    H::Time: Drop,
    <H::Gate as Door>::Wire: Drop,
    requires files { (1 ≤ length files.now) × (length files.now ≤ 12) }
    requires workers { (1 ≤ workers) × (workers ≤ 4) }
    requires ports { port + workers ≤ 65536 }
    ensures serves { ServesFiles R port workers accepts (map string_bytes files.now)
        (H.house_tale house.old) (H.house_tale house.new)
        (sink_tale (H.Out.got sink.old) (H.Out.waits sink.old) (H.Out.faults sink.old))
        (sink_tale (H.Out.got sink.new) (H.Out.waits sink.new) (H.Out.faults sink.new))
        (team_tale (T.starts team.old) (T.faults team.old))
        (team_tale (T.starts team.new) (T.faults team.new))
        result }
    ensures dial { H.tale house.new ≡ H.tale house.old }
    ensures dial_faults { H.faults house.new ≡ H.faults house.old }
{
    let Ok(LoanRooms { mut parts, sources }) = LoanRooms::make(
        alloc,
        files.len(),
        usize::from(workers),
    ) else {
        return Err(ServeFault::Memory);
    };
    if let Err(fault) = lend_all(house, port, workers, accepts, files, &mut parts) {
        put_back_all(house, parts);
        return Err(fault);
    }
    let Served { returned, ended } = serve_lent(rt, alloc, port, parts, sources, team, sink);
    put_back_all(house, returned);
    ended
}
