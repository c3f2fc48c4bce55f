//! What a client that asks for members of a guild is answered (Gateway Events, Request Guild
//! Members).
#![tactic(auto)]

ghost use Rattle.std.specs.Prelude.{◌≡◌, IfOk};
ghost use Rattle.member_chunks.specs.Answered.{answered};

mod chunk;
mod find;
pub mod law;
mod rights;

use chunk::chunks;
use dispatch_types::{Dispatch, Viewer};
use find::found;
use gateway_frames::Ask;
use guild_model::Guild;
use rights::is_answered;
use std::alloc::{AllocError, Global};

/// The answer to Request Guild Members (op 8): GUILD_MEMBERS_CHUNK in chunks of at most 1,000
/// members, at least one (Gateway Events, Guild Members Chunk). Empty exactly if the viewer is not
/// served the guild, the guild is in an outage or is not the one asked for, or the viewer lacks an
/// intent: GUILD_MEMBERS for an empty query, GUILD_PRESENCES for presences.
#[tactic(auto, unfolding(crate::specs::Answered::answered))]
pub fn answer(
    alloc: Global,
    guild: &Guild,
    viewer: &Viewer,
    ask: &Ask,
) -> Result<Vec<Dispatch>, AllocError>
    ensures { IfOk result (λ list. list.items ≡ answered guild.now viewer.now ask.now) }
{
    if !is_answered(guild, viewer, ask) {
        return Ok(Vec::new(alloc));
    }
    let members = found(alloc, guild, &ask.find)?;
    chunks(alloc, guild, ask, members.as_slice())
}
