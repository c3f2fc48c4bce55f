//! Voice states.

ghost use Rattle.object_json.specs.Added.{Adds};
ghost use Rattle.std.specs.Prelude.{OnOk, IfSome};
ghost use Rattle.object_json.specs.Fits.{IsId};
ghost use Rattle.object_json.specs.Voice.{voice_data, VoiceFits};

use crate::fault::ReadFault;
use crate::field::{close, flag_field, id_field, id_field_if, maybe_id_field, open};
use crate::readable::{Readable, nullable_at};
use crate::reading::{flag_at, id_at};
use crate::written::Written;
use dispatch_types::VoiceObject;
use json::Writer;
use json_view::Node;
use snowflake_id::Snowflake;
use std::alloc::{AllocError, Global};

/// Writes a voice state, with its guild where that is named.
pub fn write_voice(
    out: &mut Writer,
    guild: Option<Snowflake>,
    voice: &VoiceObject,
) -> Result<(), AllocError>
    ensures adds { Adds result out.old out.new (voice_data guild voice.now) }
    ensures fits { OnOk result (IfSome guild IsId × VoiceFits voice.now) }
{
    open(out)?;
    maybe_id_field(out, "channel_id", voice.channel)?;
    id_field_if(out, "guild_id", guild)?;
    flag_field(out, "self_deaf", voice.self_deaf)?;
    flag_field(out, "self_mute", voice.self_mute)?;
    id_field(out, "user_id", voice.user)?;
    close(out)?;
    Ok(())
}

/// A voice state without its guild.
impl Written for VoiceObject {
    ghost use Rattle.std.specs.Prelude.{None};
    ghost use Rattle.object_json.specs.Voice.{voice_data};
    ghost use Rattle.object_json.specs.Voice.{VoiceFits};

    ghost json = { voice_data None };

    ghost Fits = { VoiceFits };

    fn write(&self, _alloc: Global, out: &mut Writer) -> Result<(), AllocError> {
        write_voice(out, None, self)
    }
}

impl Readable for VoiceObject {
    ghost use Rattle.object_json.specs.Voice.{voice_from};

    ghost from = { voice_from };

    fn read(alloc: Global, object: &Node<'_>) -> Result<VoiceObject, ReadFault> {
        let channel = nullable_at(alloc, object, "channel_id")?;
        let self_deaf = flag_at(object, "self_deaf")?;
        let self_mute = flag_at(object, "self_mute")?;
        let user = id_at(object, "user_id")?;
        Ok(VoiceObject {
            user,
            channel,
            self_mute,
            self_deaf,
        })
    }
}
