//! What a viewer may hold of a guild as a whole.

ghost use Rattle.std.specs.Prelude.{◌≡◌, IfOk};
ghost use Rattle.intent_set.specs.Intents.{guild_voice_states, guild_presences};
ghost use Rattle.guild_model.specs.Shown.{shown_channels, shown_voices};
ghost use Rattle.dispatch_types.specs.Projection.{listed, shown_view, projection};

use crate::members::{member_count, members};
use crate::threads::threads;
use collections::{ById, Duplicate};
use dispatch_types::{GuildView, OpenView, Viewer, served};
use guild_model::{Channel, Guild, Member, Presence, Voice};
use intent_set::Intents;
use overwrite_eval::{shown_channels, shown_voices};
use snowflake_id::Snowflake;
use std::alloc::{AllocError, Global};

// The channels that a member is shown: all of them, unless the guild withholds channels.
#[tactic(auto, using(crate::proofs::Shown::channels_shown))]
fn channels(alloc: Global, guild: &Guild, me: &Member) -> Result<ById<Channel>, AllocError>
    ensures { IfOk result (λ channels. channels
        ≡ shown_channels guild.now.private guild.now me.now) }
{
    if guild.private {
        shown_channels(alloc, guild, me)
    } else {
        guild.channels.duplicate(alloc)
    }
}

// The voice states in the channels that a member is shown, if GUILD_VOICE_STATES tells of them.
#[tactic(auto, using(crate::proofs::Shown::voices_shown))]
fn voices(
    alloc: Global,
    guild: &Guild,
    intents: Intents,
    me: &Member,
) -> Result<ById<Voice>, AllocError>
    ensures { IfOk result (λ voices. voices
        ≡ listed intents guild_voice_states (shown_voices guild.now.private guild.now me.now)) }
{
    if !intents.has(Intents::GUILD_VOICE_STATES) {
        Ok(ById::new(alloc))
    } else if guild.private {
        shown_voices(alloc, guild, me)
    } else {
        guild.voices.copy(alloc)
    }
}

// The presences, if GUILD_PRESENCES tells of them.
fn presences(alloc: Global, guild: &Guild, intents: Intents) -> Result<ById<Presence>, AllocError>
    ensures { IfOk result (λ presences. presences
        ≡ listed intents guild_presences guild.now.presences) }
{
    if intents.has(Intents::GUILD_PRESENCES) {
        guild.presences.copy(alloc)
    } else {
        Ok(ById::new(alloc))
    }
}

// What a member of a guild that is available may hold of it.
fn shown_view(
    alloc: Global,
    guild: &Guild,
    intents: Intents,
    known: &[Snowflake],
    me: &Member,
) -> Result<OpenView, AllocError>
    ensures { IfOk result (λ view. view ≡ shown_view guild.now intents known.now me.now) }
{
    let channels = channels(alloc, guild, me)?;
    let threads = threads(alloc, guild, &channels, intents, me)?;
    Ok(OpenView {
        name: guild.name.copy(alloc)?,
        owner: guild.owner,
        roles: guild.roles.duplicate(alloc)?,
        channels,
        me: me.duplicate(alloc)?,
        members: members(alloc, guild, intents, known)?,
        member_count: member_count(guild, intents),
        threads,
        voices: voices(alloc, guild, intents, me)?,
        presences: presences(alloc, guild, intents)?,
    })
}

/// What a viewer may hold of a guild if it was told of the members among `known`, in any order:
/// `None` exactly if the viewer does not ask for GUILDS or is not served; in an outage no more than
/// that; else the guild by the viewer's intents (Gateway, Gateway Intents), with the active threads
/// that its member sees (Threads, Private Threads); of a guild that withholds channels, the channels
/// that its member sees, and the voice states in them.
#[tactic(auto, unfolding(dispatch_types::specs::Projection::projection))]
pub fn project(
    alloc: Global,
    guild: &Guild,
    viewer: &Viewer,
    known: &[Snowflake],
) -> Result<Option<GuildView>, AllocError>
    ensures { IfOk result (λ view. view ≡ projection guild.now viewer.now known.now) }
{
    if !viewer.intents.has(Intents::GUILDS) {
        return Ok(None);
    }
    let Some(me) = served(guild, viewer) else {
        return Ok(None);
    };
    if guild.outage {
        return Ok(Some(GuildView::Unavailable));
    }
    let view = shown_view(alloc, guild, viewer.intents, known, me)?;
    Ok(Some(GuildView::Open(view)))
}
