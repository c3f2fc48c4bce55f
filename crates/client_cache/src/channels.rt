//! CHANNEL_CREATE, CHANNEL_UPDATE and CHANNEL_DELETE.

ghost use Rattle.std.specs.Prelude.{◌≡◌, ◌==◌, not, filter, OnOk, OnErr};
ghost use Rattle.guild_model.specs.declared.voice.Voice.{Voice};
ghost use Rattle.dispatch_types.specs.declared.view.ThreadView.{ThreadView};
ghost use Rattle.dispatch_types.specs.Fold.{set_channel, drop_channel};

use crate::fold::Fold;
use crate::objects::channel_of;
use collections::ById;
use dispatch_types::{ChannelObject, OpenView, ThreadView};
use guild_model::Voice;
use snowflake_id::Snowflake;
use std::alloc::AllocError;

/// Adds or replaces a channel (Gateway Events, Channel Create and Channel Update).
pub(crate) fn set_channel(
    fold: &Fold,
    view: &mut OpenView,
    object: ChannelObject,
) -> Result<(), AllocError>
    ensures ok { OnOk result (view.new ≡ set_channel object view.old) }
    ensures err { OnErr result (view.new ≡ view.old) }
{
    let channel = channel_of(fold.alloc, object)?;
    view.channels.put(channel)
}

fn drop_threads(threads: &mut ById<ThreadView>, channel: Snowflake)
    ensures { threads.new ≡ filter (λ (t : ThreadView). not (t.parent == channel)) threads.old }
{
    threads.retain(|thread| thread.parent != channel);
}

fn drop_voices(voices: &mut ById<Voice>, channel: Snowflake)
    ensures { voices.new ≡ filter (λ (voice : Voice). not (voice.channel == channel)) voices.old }
{
    voices.retain(|voice| voice.channel != channel);
}

/// Removes a channel, its threads and the voice states in it (Gateway Events, Channel Delete).
pub(crate) fn drop_channel(view: &mut OpenView, channel: Snowflake)
    ensures { view.new ≡ drop_channel channel view.old }
{
    view.channels.remove(channel.0);
    drop_threads(&mut view.threads, channel);
    drop_voices(&mut view.voices, channel);
}
