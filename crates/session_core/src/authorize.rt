//! Who may begin a session (Gateway Events, Identify).

ghost use Rattle.std.specs.Prelude.{◌≡◌, Some, None};
ghost use Rattle.std.specs.Option.{option_copied};
ghost use Rattle.session_core.specs.Identify.{bot_of, are_intents, is_no_shard, goes_beyond, threshold_of, authorized, viewer_as, intents_if, shard_if};

use crate::Bot;
use dispatch_types::{Shard, Viewer};
use gateway_frames::Identify;
use gateway_frames::close::{DISALLOWED_INTENTS, INVALID_INTENTS, INVALID_SHARD, UNKNOWN_ERROR};
use intent_set::Intents;

/// The most live sessions that a worker has at a time.
const MAX_SESSIONS: usize = 64;

/// The bot with this token.
pub fn bot_of<'a>(bots: &'a [Bot], token: &str) -> Option<&'a Bot>
    ensures { option_copied result ≡ bot_of token.now bots.now }
{
    bots.iter().find(|bot| bot.token.is(token))
}

/// The set of these bits. `None` exactly if a bit is no intent.
#[tactic(auto, using(crate::proofs::Intents::are_intents_alone))]
fn intents_of(bits: u64) -> Option<Intents>
    ensures { result ≡ intents_if bits }
{
    match Intents::of_bits(bits) {
        Ok(intents) => Some(intents),
        Err(_) => None,
    }
}

/// The shard of these numbers. `None` exactly if they are no shard.
fn shard_of(shard: Option<(u64, u64)>) -> Option<Option<Shard>>
    ensures { result ≡ shard_if shard }
{
    let Some((id, count)) = shard else {
        return Some(None);
    };
    if id >= count {
        return None;
    }
    match Shard::new(id, count) {
        Ok(shard) => Some(Some(shard)),
        Err(_) => None,
    }
}

/// Whether one of these intents is privileged and not among those that the bot may ask for.
fn goes_beyond(intents: Intents, privileged: Intents) -> bool
    ensures { result ≡ goes_beyond intents privileged }
{
    !privileged.has(intents.privileged())
}

/// The number of members above which a guild is large.
fn threshold_of(asked: Option<u64>) -> u16
    ensures { result ≡ threshold_of asked }
{
    match asked {
        None => 50,
        Some(members) => members.clamp(50, 250) as u16,
    }
}

/// The viewer of the session that the bot begins, or the close code by which it begins none.
pub fn authorize(sessions: usize, identify: &Identify, bot: &Bot) -> Result<Viewer, u16>
    ensures { result ≡ viewer_as identify.now (authorized sessions identify.now bot.now) }
{
    let Some(intents) = intents_of(identify.intents) else {
        return Err(INVALID_INTENTS);
    };
    let Some(shard) = shard_of(identify.shard) else {
        return Err(INVALID_SHARD);
    };
    if goes_beyond(intents, bot.privileged) {
        return Err(DISALLOWED_INTENTS);
    }
    if sessions >= MAX_SESSIONS {
        return Err(UNKNOWN_ERROR);
    }
    Ok(Viewer {
        user: bot.user,
        intents,
        shard,
        threshold: threshold_of(identify.large_threshold),
    })
}
