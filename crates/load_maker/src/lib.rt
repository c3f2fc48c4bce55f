//! The script of a load: the edits with which a part of a load fills two guilds.
#![tactic(auto)]

ghost use Rattle.std.specs.Prelude.{◌≡◌, ◌≤◌, ◌++◌, flat_map, IfOk, OnOk};
ghost use Rattle.std.specs.List.{range_with_len};
ghost use Rattle.load_maker.specs.Script.{both_lines, script};

mod entries;
mod heads;
mod ids;
mod setup;
mod turns;

use edit_text::Line;
use entries::Entries;
use std::alloc::{AllocError, Global};

/// How many entries a load gives each guild.
const ENTRIES: u16 = 1001;

// Adds the first entries of both guilds of a part, as many for each.
fn add_entries(
    alloc: Global,
    lines: &mut Vec<Line>,
    seed: u64,
    part: u8,
    count: u16,
) -> Result<(), AllocError>
    requires { part ≤ 3 }
    ensures { OnOk result (lines.new.items ≡ lines.old.items ++ flat_map (both_lines seed part) (range_with_len 0 count)) }
{
    let mut lower = Entries::new(seed, 2 * part + 1);
    let mut upper = Entries::new(seed, 2 * part + 2);
    for index in 0..count {
        let line = lower.next_line(alloc, index)?;
        lines.push(line)?;
        let line_above = upper.next_line(alloc, index)?;
        lines.push(line_above)?;
    }
    Ok(())
}

/// The lines of a part of a load: a line for each of the eight guilds and the three bots, then the
/// 2,002 edits of the part's two guilds in turn.
pub fn script(alloc: Global, seed: u64, part: u8) -> Result<Vec<Line>, AllocError>
    requires { part ≤ 3 }
    ensures { IfOk result (λ lines. lines.items ≡ script seed part) }
{
    let mut lines = heads::head_lines(alloc)?;
    add_entries(alloc, &mut lines, seed, part, ENTRIES)?;
    Ok(lines)
}
