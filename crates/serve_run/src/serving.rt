//! A run of `serve`, from what it begins with to its last line.

ghost use Rattle.std.specs.Prelude.{◌≡◌, ◌+◌, ◌≤◌, length, map, IfOk, IfErr};
ghost use Rattle.serve_stage.specs.Stages.{AreLent};
ghost use Rattle.serve_run.specs.Services.{Service as AService};
ghost use Rattle.serve_run.specs.Causes.{HasServeCause, StartsParts};
ghost use Rattle.serve_run.specs.Lent.{ReturnsAll, TellsLent};
ghost use Rattle.serve_run.specs.Serves.{Serves};

use crate::answering::answer;
use crate::ends::Ends;
use crate::playing::{Played, play};
use crate::rooms::PARTS;
use crate::service::{Served, Service};
use crate::setting::set_up;
use gate_ends::Senders;
use gate_outside::clocks::Clock;
use gate_outside::doors::Door;
use gate_outside::spawners::Spawner;
use gate_outside::streams::{Sink, Source};
use serve_parts::ServePart;
use serve_stage::Lent;
use std::alloc::Global;
use std::sync::Wait;
use std::time;

/// Serves those who connect to the doors, while the scripts send the edits of their files, whose heads were read: two
/// actors, a script for each file and a worker for each door, each started by the team. When all were started it writes a line for each worker, and
/// when all have ended a line for each guild, in their order, and the strays. All that was lent goes back.
///
/// The run ends by the first fault in the order of `ServeFault`, if there is one. If a line of a file is refused it writes
/// that line's own line in place of the last ones. After another fault of a part it writes no more than the lines of the
/// workers, and if a part did not start it writes nothing.
///
/// # Errors
/// Out of memory before any part was started, or a place at a hub could not be had. All that was lent comes back, and
/// nothing was written.
pub fn serve<
    S: Source + Drop,
    D: Door + Drop,
    C: Clock + Drop,
    R: Wait + time::Clock + Copy + Drop,
    T: Spawner<ServePart<S, D, C, R>>,
    K: Sink,
>(
    rt: R,
    alloc: Global,
    service: Service<S, D, C>,
    team: &mut T,
    sink: &mut K,
) -> Result<Served<S, D, C>, Lent<S, D, C>>
where
    D::Wire: Drop,
    requires counts { AreLent service.lent }
    requires ports { service.port + length service.lent.doors.items ≤ 65536 }
    requires heads { (s : AService) × TellsLent S.left S.faults D.tale D.faults C.tale service.port service.bots.items service.guilds.items service.lent s }
    ensures serves { IfOk result (λ served. (s : AService) → TellsLent S.left S.faults D.tale D.faults C.tale service.port service.bots.items service.guilds.items service.lent s
        → Serves s (K.got sink.old) (K.got sink.new) (K.waits sink.old) (K.faults sink.old) (K.faults sink.new) served.ended) }
    ensures cause { IfOk result (λ served. (s : AService) → TellsLent S.left S.faults D.tale D.faults C.tale service.port service.bots.items service.guilds.items service.lent s
        → HasServeCause R s (T.faults team.old) (T.faults team.new) (K.faults sink.old) (K.faults sink.new) (map S.faults served.returned.sources.items) (map D.faults served.returned.doors.items) served.ended) }
    ensures starts { IfOk result (λ served. StartsParts (2 + (length service.lent.files.items + length service.lent.doors.items)) (T.starts team.old) (T.starts team.new) served.ended) }
    ensures returned { IfOk result (λ served. ReturnsAll service.lent served.returned) }
    ensures lent { IfErr result (λ lent. lent ≡ service.lent) }
    ensures team { IfErr result (λ lent. team.new ≡ team.old) }
    ensures sink { IfErr result (λ lent. sink.new ≡ sink.old) }
{
    let Service {
        port,
        bots,
        guilds,
        lent,
    } = service;
    let Ok(started) = Vec::<T::Held>::with_capacity(alloc, PARTS) else {
        drop(bots);
        drop(guilds);
        return Err(lent);
    };
    let ready = match set_up(rt, alloc, port, bots, guilds.as_slice(), lent) {
        Ok(ready) => ready,
        Err(lent) => {
            started.destroy_empty();
            drop(guilds);
            return Err(lent);
        }
    };
    let Played {
        posts,
        ends,
        started: _,
        fault,
        told,
    } = play(team, sink, ready, started);
    let Ends {
        actors,
        scripts,
        workers,
        returned,
    } = ends;
    let senders = Senders {
        actors,
        scripts,
        workers,
    };
    let ended = answer(alloc, guilds.as_slice(), posts, senders, fault, told, sink);
    Ok(Served { returned, ended })
}
