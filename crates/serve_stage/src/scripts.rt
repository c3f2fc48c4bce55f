//! The parts of the scripts.

ghost use Rattle.std.specs.Prelude.{◌≡◌, ◌≤◌, ◌-◌, [], length, drop, vec_capacity, All, IfOk, OnOk};
ghost use Rattle.guild_places.specs.Places.{AreDistinct, guilds_of};
ghost use Rattle.run_stage.specs.Dealing.{AreFrom};
ghost use Rattle.serve_stage.specs.Drafts.{IsScriptDraft, IsScriptOf, IsFiledScript, MaySend};
ghost use Rattle.serve_stage.specs.Parts.{file_of};

use crate::supply::Supply;
use edit_post::SendPass;
use guild_hub::HubWriter;
use guild_places::index_of;
use indexmap::IndexSet;
use run_stage::{Ground, take_next};
use serve_heads::ScriptFile;
use serve_parts::FilePart;
use snowflake_id::Snowflake;
use std::alloc::AllocError;
use std::collections::VecDeque;
use std::sync::Wait;
use stop_flag::StopSeat;

/// A script's part that has no file yet.
#[derive(Drop)]
pub(crate) struct ScriptDraft<R: Wait + Copy + Drop> {
    pub ground: Ground<R>,
    pub passes: Vec<SendPass>,
    pub index: IndexSet<u64>,
    pub seat: StopSeat,
}

// The index of the guilds of these writers, and a share of what all parts share.
fn begun<R: Wait + Copy + Drop>(
    ground: &Ground<R>,
    writers: &[(Snowflake, HubWriter<R>)],
) -> Result<(Ground<R>, IndexSet<u64>), AllocError>
    requires { AreDistinct (guilds_of writers.now) }
    ensures posts { IfOk result (λ r. r.0.posts ≡ ground.now.posts) }
    ensures index { IfOk result (λ r. r.1.keys ≡ guilds_of writers.now) }
{
    let index = index_of(ground.alloc, writers)?;
    let share = ground.share()?;
    Ok((share, index))
}

/// Adds so many scripts, without files. The guilds of the run are those of these writers.
///
/// # Errors
/// Out of memory.
pub(crate) fn add_scripts<R: Wait + Copy + Drop>(
    ground: &Ground<R>,
    count: u8,
    writers: &[(Snowflake, HubWriter<R>)],
    supply: &mut Supply,
    drafts: &mut VecDeque<ScriptDraft<R>>,
) -> Result<(), AllocError>
    requires guilds { AreDistinct (guilds_of writers.now) }
    requires passes { count ≤ length supply.old.passes.items }
    requires seats { count ≤ length supply.old.seats.left.items }
    requires none { drafts.old.items ≡ [] }
    ensures passes { OnOk result (supply.new.passes.items ≡ drop count supply.old.passes.items) }
    ensures readers { OnOk result (supply.new.readers ≡ supply.old.readers) }
    ensures seats { OnOk result (length supply.new.seats.left.items ≡ length supply.old.seats.left.items - count) }
    ensures drafts { OnOk result (AreFrom (IsScriptDraft ground.now.posts (guilds_of writers.now) supply.old.passes.items) 0 count drafts.new.items) }
{
    for number in 0..count {
        // Only the loop's invariant speaks of the number.
        let _ = number;
        let (share, index) = begun(ground, writers)?;
        let passes = take_next(&mut supply.passes);
        let seat = supply.seats.take_next();
        drafts.push_back(ScriptDraft {
            ground: share,
            passes,
            index,
            seat,
        })?;
    }
    Ok(())
}

// The part of a script. It does not allocate.
fn script_part<S: Drop, R: Wait + Copy + Drop>(
    draft: ScriptDraft<R>,
    file: ScriptFile<S>,
) -> FilePart<S, R>
    requires { MaySend draft }
    ensures made { IsScriptOf draft result }
    ensures file { file_of result ≡ file }
{
    let ScriptFile { source, script } = file;
    let ScriptDraft {
        ground,
        passes,
        index,
        seat,
    } = draft;
    let (rt, alloc, posts, word) = ground.into_parts();
    FilePart {
        rt,
        alloc,
        posts,
        passes,
        index,
        source,
        script,
        word,
        seat,
    }
}

/// Adds the parts of all scripts, each with the next of these files. There is room for the parts, and it does
/// not allocate.
pub(crate) fn add_filed_scripts<S: Drop, R: Wait + Copy + Drop>(
    mut drafts: VecDeque<ScriptDraft<R>>,
    files: Vec<ScriptFile<S>>,
    parts: &mut Vec<FilePart<S, R>>,
)
    requires drafts { (length drafts.items ≡ length files.items) × All MaySend drafts.items }
    requires room { (parts.old.items ≡ []) × (length files.items ≤ vec_capacity parts.old) }
    ensures { AreFrom (IsFiledScript drafts.items files.items) 0 (length files.items) parts.new.items }
{
    let count = files.len();
    let mut left = VecDeque::from(files);
    for number in 0..count {
        // Only the loop's invariant speaks of the number.
        let _ = number;
        let draft = take_next(&mut drafts);
        let file = take_next(&mut left);
        parts.push_reserved(script_part(draft, file));
    }
    left.destroy_empty();
}
