//! What is lent is served.

ghost use Rattle.std.specs.Prelude.{◌≡◌, ◌+◌, ◌≤◌, [], length, Err};
ghost use Rattle.std.specs.Vec.{vec_capacity};
ghost use Rattle.serve_run.specs.declared.fault.ServeFault.TheVariants.{Memory};
ghost use Rattle.serve_run.specs.Parts.{AreCounts, ServesOrNot};
ghost use Rattle.serve_run.specs.Serving.{sink_tale, team_tale};

use crate::ends::Returned;
use crate::fault::ServeFault;
use crate::service::{Served, Service};
use crate::serving::serve;
use crate::unread::sources_of;
use gate_outside::clocks::Clock;
use gate_outside::doors::Door;
use gate_outside::spawners::Spawner;
use gate_outside::streams::{Sink, Source};
use serve_heads::{Heads, read_heads};
use serve_parts::ServePart;
use serve_stage::Lent;
use std::alloc::Global;
use std::sync::Wait;
use std::time;

// What goes back of a run that has not begun for want of memory.
fn unserved<S, D, C>(lent: Lent<S, D, C>, sources: Vec<S>) -> Served<S, D, C>
    requires empty { sources.items ≡ [] }
    requires room { length lent.files.items ≤ vec_capacity sources }
    ensures ended { result.ended ≡ Err Memory }
    ensures sources { length result.returned.sources.items ≡ length lent.files.items }
    ensures doors { result.returned.doors ≡ lent.doors }
    ensures clocks { result.returned.clocks ≡ lent.clocks }
{
    let Lent {
        files,
        doors,
        clocks,
    } = lent;
    Served {
        returned: Returned {
            sources: sources_of(files, sources),
            doors,
            clocks,
        },
        ended: Err(ServeFault::Memory),
    }
}

/// Reads the heads of the files, and serves. `sources` has room for the sources, where nothing can be served.
pub(crate) fn serve_lent<
    S: Source + Drop,
    D: Door + Drop,
    C: Clock + Drop,
    R: Wait + time::Clock + Copy + Drop,
    T: Spawner<ServePart<S, D, C, R>>,
    K: Sink,
>(
    rt: R,
    alloc: Global,
    port: u16,
    parts: Returned<S, D, C>,
    sources: Vec<S>,
    team: &mut T,
    sink: &mut K,
) -> Served<S, D, C>
where
    D::Wire: Drop,
    requires counts { AreCounts parts }
    requires ports { port + length parts.doors.items ≤ 65536 }
    requires empty { sources.items ≡ [] }
    requires room { length parts.sources.items ≤ vec_capacity sources }
    ensures { ServesOrNot S.left S.faults D.tale D.faults C.tale R port parts result.returned
        (sink_tale (K.got sink.old) (K.waits sink.old) (K.faults sink.old))
        (sink_tale (K.got sink.new) (K.waits sink.new) (K.faults sink.new))
        (team_tale (T.starts team.old) (T.faults team.old))
        (team_tale (T.starts team.new) (T.faults team.new))
        result.ended }
{
    let Returned {
        sources: lent,
        doors,
        clocks,
    } = parts;
    match read_heads(alloc, lent) {
        Ok(
            Heads {
                files,
                bots,
                guilds,
            },
        ) => {
            let lent = Lent {
                files,
                doors,
                clocks,
            };
            let service = Service {
                port,
                bots,
                guilds,
                lent,
            };
            match serve(rt, alloc, service, team, sink) {
                Ok(served) => served,
                Err(lent) => unserved(lent, sources),
            }
        }
        Err(lent) => Served {
            returned: Returned {
                sources: lent,
                doors,
                clocks,
            },
            ended: Err(ServeFault::Memory),
        },
    }
}
