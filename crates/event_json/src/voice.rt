//! The body of VOICE_STATE_UPDATE.

ghost use Rattle.std.specs.Prelude.{OnOk};
ghost use Rattle.json_view.specs.Nodes.{view};
ghost use Rattle.object_json.specs.Reading.{UnlessMemory};
ghost use Rattle.object_json.specs.Added.{Adds};
ghost use Rattle.event_json.specs.Voice.{voice_state_update_data, voice_state_update_from, VoiceStateUpdateFits};

use dispatch_types::{VoiceObject, VoiceStateUpdate};
use json::Writer;
use json_view::Node;
use object_json::fault::ReadFault;
use object_json::readable::Readable;
use object_json::reading::id_at;
use object_json::voice::write_voice;
use std::alloc::{AllocError, Global};

/// Writes the body of Voice State Update.
pub fn write_voice_state_update(
    out: &mut Writer,
    update: &VoiceStateUpdate,
) -> Result<(), AllocError>
    ensures adds { Adds result out.old out.new (voice_state_update_data update.now) }
    ensures fits { OnOk result (VoiceStateUpdateFits update.now) }
{
    write_voice(out, Some(update.guild), &update.voice)
}

/// Reads the body of Voice State Update.
pub fn read_voice_state_update(
    alloc: Global,
    body: &Node<'_>,
) -> Result<VoiceStateUpdate, ReadFault>
    ensures { UnlessMemory result (voice_state_update_from (view body.now)) }
{
    let guild = id_at(body, "guild_id")?;
    let voice = VoiceObject::read(alloc, body)?;
    Ok(VoiceStateUpdate { guild, voice })
}
