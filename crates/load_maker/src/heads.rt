//! The head lines of a load: its guilds and its bots.

ghost use Rattle.std.specs.Prelude.{◌≡◌, ◌++◌, map, IfOk, OnOk};
ghost use Rattle.std.specs.List.{range_with_len};
ghost use Rattle.load_maker.specs.Script.{guild_line, bot_line, head};

use crate::ids::{bot_name, guild_id, id_in, user_id};
use edit_text::{Line, RING_BYTES, RING_ITEMS};
use intent_set::Intents;
use std::alloc::{AllocError, Global};

const GUILDS: u8 = 8;

const BOTS: u32 = 3;

// The intents that each bot may ask for: every privileged one.
fn privileged() -> Intents
    ensures { result ≡ 33026 }
{
    Intents::of_bits(33026).unwrap()
}

fn bot_line(alloc: Global, bot: u32) -> Result<Line, AllocError>
    ensures { IfOk result (λ line. line ≡ bot_line bot) }
{
    let token = bot_name(alloc, bot)?;
    let name = bot_name(alloc, bot)?;
    Ok(Line::Bot {
        token,
        user: user_id(bot),
        name,
        privileged: privileged(),
        v: 1,
        ring_items: RING_ITEMS,
        ring_bytes: RING_BYTES,
    })
}

fn add_guilds(lines: &mut Vec<Line>, count: u8) -> Result<(), AllocError>
    ensures { OnOk result (lines.new.items ≡ lines.old.items ++ map guild_line (range_with_len 1 count)) }
{
    for before in 0..count {
        lines.push(Line::Guild {
            id: id_in(guild_id(before + 1), 0),
        })?;
    }
    Ok(())
}

fn add_bots(alloc: Global, lines: &mut Vec<Line>, count: u32) -> Result<(), AllocError>
    ensures { OnOk result (lines.new.items ≡ lines.old.items ++ map bot_line (range_with_len 1 count)) }
{
    for before in 0..count {
        lines.push(bot_line(alloc, before + 1)?)?;
    }
    Ok(())
}

/// The lines of all guilds, then of all bots.
#[tactic(auto, unfolding(crate::specs::Script::head))]
pub(crate) fn head_lines(alloc: Global) -> Result<Vec<Line>, AllocError>
    ensures { IfOk result (λ lines. lines.items ≡ head) }
{
    let mut lines = Vec::new(alloc);
    add_guilds(&mut lines, GUILDS)?;
    add_bots(alloc, &mut lines, BOTS)?;
    Ok(lines)
}
