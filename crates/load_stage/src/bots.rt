//! The bots of a load, and the URLs of its workers.

ghost use Rattle.std.specs.Prelude.{◌≡◌, IfOk};
ghost use Rattle.load_maker.specs.Edits.{bot_name};
ghost use Rattle.load_stage.specs.Bots.{load_bot, load_bots, worker_url};

use collections::Text;
use edit_text::{RING_BYTES, RING_ITEMS};
use intent_set::Intents;
use session_core::Bot;
use snowflake_id::Snowflake;
use std::alloc::{AllocError, Global};

/// How many bots a load has.
const BOTS: u8 = 3;

/// The name of a bot, which is its token too.
///
/// # Errors
/// Out of memory.
pub(crate) fn bot_name(alloc: Global, number: u8) -> Result<Text, AllocError>
    ensures { IfOk result (λ name. name ≡ bot_name number) }
{
    Ok(Text::from_string(format!(in alloc; "b{number}")?))
}

/// The URL of a worker.
///
/// # Errors
/// Out of memory.
pub(crate) fn worker_url(alloc: Global, worker: u8) -> Result<Text, AllocError>
    ensures { IfOk result (λ url. url ≡ worker_url worker) }
{
    Ok(Text::from_string(format!(in alloc; "ws://w{worker}.gate.invalid")?))
}

// The intents that each bot may ask for: every privileged one.
fn privileged() -> Intents
    ensures { result ≡ 33026 }
{
    Intents::of_bits(33026).unwrap()
}

// The bot with this number.
fn bot(alloc: Global, number: u8) -> Result<Bot, AllocError>
    ensures { IfOk result (λ bot. bot ≡ load_bot number) }
{
    let token = bot_name(alloc, number)?;
    let name = bot_name(alloc, number)?;
    Ok(Bot {
        token,
        user: Snowflake(u64::from(number)),
        name,
        privileged: privileged(),
        ring_items: RING_ITEMS,
        ring_bytes: RING_BYTES,
    })
}

/// The bots of a load.
///
/// # Errors
/// Out of memory.
pub(crate) fn bots(alloc: Global) -> Result<Vec<Bot>, AllocError>
    ensures { IfOk result (λ bots. bots.items ≡ load_bots) }
{
    let mut bots = Vec::new(alloc);
    for before in 0..BOTS {
        bots.push(bot(alloc, before + 1)?)?;
    }
    Ok(bots)
}
