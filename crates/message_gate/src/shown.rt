//! Whom a dispatch about a channel or a thread is shown (Gateway, Gateway Intents; Permissions,
//! VIEW_CHANNEL; Threads, Private Threads).

ghost use Rattle.std.specs.Prelude.{◌≡◌};
ghost use Rattle.message_gate.specs.Shows.{sees_channel_or_thread, shows};

use dispatch_types::{Viewer, served, serves};
use guild_model::Guild;
use intent_set::Kind;
use overwrite_eval::{MaskSource, StandingRef, sees_channel_by, sees_thread_by};
use snowflake_id::Snowflake;

// Whether a user sees a channel or a thread, by its masks. In a channel that it sees no thread is looked for.
fn sees_by<M: MaskSource>(guild: &Guild, user: Snowflake, channel: Snowflake, masks: &M) -> bool
    ensures { M.stands_for masks.now guild.now user → result ≡ sees_channel_or_thread guild.now user channel }
{
    if sees_channel_by(masks, channel) {
        return true;
    }
    match guild.thread(channel) {
        Some(thread) => sees_thread_by(masks, user, thread),
        None => false,
    }
}

/// Whether a viewer is shown a dispatch of a kind about a channel or a thread, by what answers its user's
/// masks: it is served the guild, its intents ask for the kind (Gateway, Gateway Intents), and its user sees
/// the channel (Permissions, VIEW_CHANNEL). Does not allocate.
#[tactic(auto, unfolding(crate::specs::Shows::shows))]
pub fn shows_by<M: MaskSource>(
    guild: &Guild,
    viewer: &Viewer,
    channel: Snowflake,
    kind: Kind,
    masks: &M,
) -> bool
    ensures { M.stands_for masks.now guild.now viewer.now.user → result ≡ shows guild.now viewer.now channel kind }
{
    viewer.intents.asks(kind, false)
        && serves(guild, viewer)
        && sees_by(guild, viewer.user, channel, masks)
}

/// Whether a viewer is shown a dispatch of a kind about a channel or a thread: it is served the guild,
/// its intents ask for the kind, and its user sees the channel, all by this record alone. Does not allocate.
#[tactic(auto, using(crate::proofs::ByMember::stands_served), unfolding(crate::specs::Shows::shows))]
pub fn shows(guild: &Guild, viewer: &Viewer, channel: Snowflake, kind: Kind) -> bool
    ensures { result ≡ shows guild.now viewer.now channel kind }
{
    if !viewer.intents.asks(kind, false) {
        return false;
    }
    match served(guild, viewer) {
        Some(me) => sees_by(
            guild,
            viewer.user,
            channel,
            &StandingRef::in_guild(guild, me),
        ),
        None => false,
    }
}
