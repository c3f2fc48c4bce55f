//! What clients ask for when they update their presence or voice state (Gateway Events).

ghost use Rattle.std.specs.Prelude.{◌≡◌, ◌++◌, flat_map, OnOk};
ghost use Rattle.wishes.specs.Wishes.{presence_wish, voice_wish};
ghost use Rattle.world_law.specs.Wants.{wished};
ghost use Rattle.worker_core.specs.Outputs.{all_written};
ghost use Rattle.worker_core.specs.InCode.{replica_id};

use crate::io::{Output, put};
use crate::wished_edit::WishedEdit;
use dispatch_types::Viewer;
use edit_apply::Edit;
use gateway_frames::VoiceAsk;
use guild_model::Status;
use guild_replica::Replica;
use snowflake_id::Snowflake;
use std::alloc::{AllocError, Global};
use wishes::{presence_wish, voice_wish};

// Adds a wish, if there is one.
fn put_wish(
    alloc: Global,
    out: &mut Vec<Output>,
    guild: Snowflake,
    wish: Option<Edit>,
) -> Result<(), AllocError>
    ensures { OnOk result (out.new.items ≡ out.old.items ++ all_written (wished guild wish)) }
{
    match wish {
        Some(edit) => put(out, Output::Wish(guild, WishedEdit::new(alloc, edit)?)),
        None => Ok(()),
    }
}

/// Adds a wish for each guild in which a client sets the status of its bot.
pub fn wish_presence(
    alloc: Global,
    replicas: &[Replica],
    viewer: &Viewer,
    status: Status,
    out: &mut Vec<Output>,
) -> Result<(), AllocError>
    ensures { OnOk result (out.new.items ≡ out.old.items ++ all_written (flat_map (λ r. wished (replica_id r) (presence_wish r.guild viewer.now status)) replicas.now)) }
{
    for replica in replicas {
        let guild = replica.guild();
        let wish = presence_wish(guild, viewer, status);
        put_wish(alloc, out, guild.id, wish)?;
    }
    Ok(())
}

/// Adds the wish of a client that moves its bot to a voice channel, or out of it.
pub fn wish_voice(
    alloc: Global,
    replica: &Replica,
    viewer: &Viewer,
    ask: &VoiceAsk,
    out: &mut Vec<Output>,
) -> Result<(), AllocError>
    ensures { OnOk result (out.new.items ≡ out.old.items ++ all_written (wished (replica_id replica.now) (voice_wish replica.now.guild viewer.now ask.now))) }
{
    let guild = replica.guild();
    let wish = voice_wish(guild, viewer, ask);
    put_wish(alloc, out, guild.id, wish)
}
