//! The entries of a guild's log, one after another.

ghost use Rattle.std.specs.Prelude.{◌≡◌, ◌+◌, ◌*◌, ◌%◌, ◌^◌, IfOk};
ghost use Rattle.load_maker.specs.Draws.{first_number, number_after, draw_of};
ghost use Rattle.load_maker.specs.Edits.{guild_id, rename, entry};

use crate::ids::{guild_id, id_in};
use crate::setup::setup;
use crate::turns::{rename, turn};
use edit_apply::Edit;
use edit_text::Line;
use std::alloc::{AllocError, Global};

/// The place of the last entry.
const LAST: u16 = 1000;

/// How many entries stand before the turns.
const SETUP: u16 = 16;

/// How many kinds of turns there are.
const KINDS: u16 = 8;

/// The entries of a guild that are still to come: the guild's number, and the number from which the
/// next one is drawn.
#[derive(Drop)]
pub(crate) struct Entries {
    pub(crate) guild: u8,
    pub(crate) number: u64,
}

// A step of a linear congruential generator.
fn advance(number: u64, factor: u64, addend: u64) -> u64
    ensures { result ≡ (number * factor + addend) % 2 ^ 64 }
{
    number.wrapping_mul(factor).wrapping_add(addend)
}

#[tactic(auto, unfolding(crate::specs::Draws::first_number))]
fn first_number(seed: u64, guild: u8) -> u64
    ensures { result ≡ first_number seed guild }
{
    advance(seed, 8, u64::from(guild))
}

#[tactic(auto, unfolding(crate::specs::Draws::number_after))]
fn number_after(number: u64) -> u64
    ensures { result ≡ number_after number }
{
    advance(number, 6_364_136_223_846_793_005, 1_442_695_040_888_963_407)
}

fn draw_of(number: u64) -> u32
    ensures { result ≡ draw_of number }
{
    (number >> 33) as u32
}

#[tactic(auto, unfolding(crate::specs::Edits::entry))]
fn entry(alloc: Global, guild: u32, index: u16, draw: u32) -> Result<Edit, AllocError>
    ensures { IfOk result (λ edit. edit ≡ entry guild index draw) }
{
    if index < SETUP {
        return setup(alloc, guild, index);
    }
    if index == LAST {
        return rename(alloc, "end");
    }
    let turns = index - SETUP;
    turn(alloc, guild, turns % KINDS, turns / KINDS, draw)
}

impl Entries {
    /// The entries of the guild with this number, from the first on.
    pub(crate) fn new(seed: u64, guild: u8) -> Entries
        ensures { result ≡ record { guild = guild; number = first_number seed guild } }
    {
        Entries {
            guild,
            number: first_number(seed, guild),
        }
    }

    /// The line of the next entry, of which this is the place.
    pub(crate) fn next_line(&mut self, alloc: Global, index: u16) -> Result<Line, AllocError>
        ensures moves { self.new ≡ record self.old { number = number_after self.old.number } }
        ensures made { IfOk result (λ line. line ≡ Line.Edit (guild_id self.old.guild) (entry (guild_id self.old.guild) index (draw_of (number_after self.old.number)))) }
    {
        self.number = number_after(self.number);
        let guild = guild_id(self.guild);
        let edit = entry(alloc, guild, index, draw_of(self.number))?;
        Ok(Line::Edit {
            guild: id_in(guild, 0),
            edit,
        })
    }
}
