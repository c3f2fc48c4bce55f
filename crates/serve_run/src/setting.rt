//! What a run is made of before the first part is started.

ghost use Rattle.std.specs.Prelude.{◌≡◌, ◌+◌, ◌≤◌, length, string_bytes, IfOk, IfErr};
ghost use Rattle.serve_stage.specs.Stages.{AreLent, IsStage};
ghost use Rattle.serve_run.specs.Lines.{worker_lines};
ghost use Rattle.serve_run.specs.Services.{ascending};
ghost use Rattle.serve_run.specs.Rooms.{AreRoomy};

use crate::lines::worker_lines;
use crate::rooms::{Rooms, make_rooms};
use collections::ById;
use file_script::Declared;
use serve_stage::{Lent, Stage, set_stage};
use session_core::Bot;
use snowflake_id::Snowflake;
use std::alloc::{AllocError, Global};
use std::sync::Wait;

/// All parts of a run, room for what they leave, and the lines of its workers.
#[derive(Drop)]
pub struct Ready<S, D, C, R: Wait + Copy + Drop> {
    pub stage: Stage<S, D, C, R>,
    pub rooms: Rooms<S, D, C, R>,
    pub lines: String,
}

// What is made before the parts are.
#[derive(Drop)]
struct Means<S, D, C, R: Wait + Copy + Drop> {
    rooms: Rooms<S, D, C, R>,
    lines: String,
    ids: Vec<Snowflake>,
}

// The guilds, each once, ascending.
fn ids_of(alloc: Global, guilds: &[Snowflake]) -> Result<Vec<Snowflake>, AllocError>
    ensures { IfOk result (λ ids. ids.items ≡ ascending guilds.now) }
{
    let ids = ById::of(alloc, Vec::from_slice(alloc, guilds)?)?;
    Vec::from_slice(alloc, ids.as_slice())
}

fn make_means<S: Drop, D: Drop, C: Drop, R: Wait + Copy + Drop>(
    alloc: Global,
    port: u16,
    workers: u8,
    guilds: &[Snowflake],
) -> Result<Means<S, D, C, R>, AllocError>
    requires { port + workers ≤ 65536 }
    ensures rooms { IfOk result (λ means. AreRoomy 18 means.rooms) }
    ensures lines { IfOk result (λ means. string_bytes means.lines ≡ worker_lines port workers) }
    ensures ids { IfOk result (λ means. means.ids.items ≡ ascending guilds.now) }
{
    let lines = worker_lines(alloc, port, workers)?;
    let ids = ids_of(alloc, guilds)?;
    let rooms = make_rooms(alloc)?;
    Ok(Means { rooms, lines, ids })
}

/// Sets up a run of these bots and guilds.
///
/// # Errors
/// Out of memory, or a place at a hub that could not be had. All that was lent comes back.
pub fn set_up<S: Drop, D: Drop, C: Drop, R: Wait + Copy + Drop>(
    rt: R,
    alloc: Global,
    port: u16,
    bots: Vec<Bot>,
    guilds: &[Snowflake],
    lent: Lent<S, D, C>,
) -> Result<Ready<S, D, C, R>, Lent<S, D, C>>
    requires counts { AreLent lent }
    requires ports { port + length lent.doors.items ≤ 65536 }
    ensures stage { IfOk result (λ ready. IsStage port bots.items (ascending guilds.now) lent ready.stage) }
    ensures rooms { IfOk result (λ ready. AreRoomy 18 ready.rooms) }
    ensures lines { IfOk result (λ ready. string_bytes ready.lines ≡ worker_lines port (length lent.doors.items)) }
    ensures back { IfErr result (λ back. back ≡ lent) }
{
    let workers = lent.doors.len() as u8;
    let Ok(means) = make_means(alloc, port, workers, guilds) else {
        drop(bots);
        return Err(lent);
    };
    let Means { rooms, lines, ids } = means;
    let declared = Declared { bots, guilds: ids };
    match set_stage(rt, alloc, port, &declared, lent) {
        Ok(stage) => Ok(Ready {
            stage,
            rooms,
            lines,
        }),
        Err(lent) => {
            drop(rooms);
            drop(lines);
            Err(lent)
        }
    }
}
