//! The parts of the four scripts.

ghost use Rattle.std.specs.Prelude.{◌≡◌, ◌<◌, ◌≤◌, [], length, IfOk, OnOk};
ghost use Rattle.gate_parts.specs.Ready.{CanSend};
ghost use Rattle.guild_places.specs.Places.{guilds_of};
ghost use Rattle.load_maker.specs.Script.{script as lines_of};
ghost use Rattle.run_stage.specs.Dealing.{AreFrom};
ghost use Rattle.run_stage.specs.Posts.{ArePassesOf};
ghost use Rattle.run_stage.specs.Seats.{HasSeats};
ghost use Rattle.load_stage.specs.Guilds.{guild_ids};
ghost use Rattle.load_stage.specs.Parts.{IsScript};

use edit_post::SendPass;
use edit_text::Line;
use gate_parts::ScriptPart;
use guild_hub::HubReader;
use guild_places::index_of;
use indexmap::IndexSet;
use load_maker::script as lines_of;
use run_stage::{Ground, Seats, take_next};
use snowflake_id::Snowflake;
use std::alloc::AllocError;
use std::collections::VecDeque;
use std::sync::Wait;
use stop_flag::StopSeat;

/// How many scripts a load has.
const SCRIPTS: u8 = 4;

// The part of a script.
fn script_part<R: Wait + Copy + Drop>(
    ground: Ground<R>,
    passes: Vec<SendPass>,
    index: IndexSet<u64>,
    lines: Vec<Line>,
    seat: StopSeat,
) -> ScriptPart<R>
    requires { CanSend ground.posts passes.items }
    ensures posts { result.posts ≡ ground.posts }
    ensures own { (result.passes ≡ passes) × (result.index ≡ index) × (result.lines ≡ lines) × (result.seat ≡ seat) }
{
    let (rt, alloc, posts, word) = ground.into_parts();
    ScriptPart {
        rt,
        alloc,
        posts,
        passes,
        index,
        lines,
        word,
        seat,
    }
}

// The part of the script with this number. The index has the guilds of these readers.
fn script<R: Wait + Copy + Drop>(
    ground: &Ground<R>,
    seed: u64,
    number: u8,
    readers: &[(Snowflake, HubReader)],
    passes: Vec<SendPass>,
    seat: StopSeat,
) -> Result<ScriptPart<R>, AllocError>
    requires number { number ≤ 3 }
    requires passes { CanSend ground.now.posts passes.items }
    requires guilds { guilds_of readers.now ≡ guild_ids }
    ensures posts { IfOk result (λ part. part.posts ≡ ground.now.posts) }
    ensures own { IfOk result (λ part. (part.passes ≡ passes) × (part.seat ≡ seat)) }
    ensures index { IfOk result (λ part. part.index.keys ≡ guild_ids) }
    ensures lines { IfOk result (λ part. part.lines.items ≡ lines_of seed number) }
{
    let ground = ground.share()?;
    let index = index_of(ground.alloc, readers)?;
    let lines = lines_of(ground.alloc, seed, number)?;
    Ok(script_part(ground, passes, index, lines, seat))
}

/// Adds the parts of all scripts. The guilds of the load are those of these readers.
///
/// # Errors
/// Out of memory.
pub(crate) fn add_scripts<R: Wait + Copy + Drop>(
    ground: &Ground<R>,
    seed: u64,
    readers: &[(Snowflake, HubReader)],
    passes: &mut VecDeque<Vec<SendPass>>,
    seats: &mut Seats,
    parts: &mut Vec<ScriptPart<R>>,
) -> Result<(), AllocError>
    requires some { 0 < length ground.now.posts }
    requires guilds { guilds_of readers.now ≡ guild_ids }
    requires passes { AreFrom (ArePassesOf ground.now.posts) 0 7 passes.old.items }
    requires seats { HasSeats 22 2 20 seats.old }
    requires none { parts.old.items ≡ [] }
    ensures passes { OnOk result (AreFrom (ArePassesOf ground.now.posts) 4 3 passes.new.items) }
    ensures seats { OnOk result (HasSeats 22 6 16 seats.new × (seats.new.keeper ≡ seats.old.keeper)) }
    ensures parts { OnOk result (AreFrom (IsScript ground.now.posts seats.old.keeper.flag seed) 0 4 parts.new.items) }
{
    for number in 0..SCRIPTS {
        let its_passes = take_next(passes);
        let seat = seats.take_next();
        parts.push(script(ground, seed, number, readers, its_passes, seat)?)?;
    }
    Ok(())
}
