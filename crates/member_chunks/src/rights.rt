//! Whether a request for members is answered.

ghost use Rattle.std.specs.Prelude.{◌≡◌};
ghost use Rattle.member_chunks.specs.Answered.{wants_presences, may_find, may_ask, is_answered};

use dispatch_types::{Viewer, serves};
use gateway_frames::{Ask, Find};
use guild_model::Guild;
use intent_set::Intents;

pub(crate) fn wants_presences(ask: &Ask) -> bool
    ensures { result ≡ wants_presences ask.now }
{
    ask.presences.unwrap_or(false)
}

fn may_find(viewer: &Viewer, find: &Find) -> bool
    ensures { result ≡ may_find viewer.now find.now }
{
    match find {
        Find::Query { query, .. } => {
            query.len() != 0 || viewer.intents.has(Intents::GUILD_MEMBERS)
        }
        Find::Users(_) => true,
    }
}

fn may_ask(viewer: &Viewer, ask: &Ask) -> bool
    ensures { result ≡ may_ask viewer.now ask.now }
{
    may_find(viewer, &ask.find)
        && (!wants_presences(ask) || viewer.intents.has(Intents::GUILD_PRESENCES))
}

// The guild is the one asked for, it is served and available, and the viewer has the intents.
pub(crate) fn is_answered(guild: &Guild, viewer: &Viewer, ask: &Ask) -> bool
    ensures { result ≡ is_answered guild.now viewer.now ask.now }
{
    ask.guild == guild.id && serves(guild, viewer) && !guild.outage && may_ask(viewer, ask)
}
