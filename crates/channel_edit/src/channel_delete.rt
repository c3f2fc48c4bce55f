//! `channel_delete`: deletes a channel, with its threads, the messages in it and in them, and the
//! voice states in it. Its children have no parent after that (Gateway Events, Channel Delete).

ghost use Rattle.std.specs.Prelude.{◌≡◌, None, true, refl, filter};
ghost use Rattle.guild_model.specs.Tests.{outcome};
ghost use Rattle.collections.specs.ById.{IsById};
ghost use Rattle.guild_model.specs.Record.{thread_id, voice_id};
ghost use Rattle.channel_edit.specs.ChannelEnd.{channel_delete_verdict, channel_deleted, orphaned, is_outside, speaks_outside, stands_in_no_thread, stands_outside};

use collections::{ById, Change};
use guild_model::{Channel, Guild, MessageHeads, Thread, Verdict, Voice, rules};
use snowflake_id::Snowflake;

/// Refused with `UnknownChannel`.
pub fn check(guild: &Guild, channel: Snowflake) -> Result<(), Verdict>
    ensures { result ≡ outcome (channel_delete_verdict guild.now channel) }
{
    rules::knows_channel(guild, channel)
}

/// Clears a channel's parent where that is the deleted channel.
#[derive(Clone, Copy)]
struct Orphan(Snowflake);

impl Change<Channel> for Orphan {
    ghost changed = { λ change c. orphaned change.0 c };

    fn change(self, channel: &mut Channel) {
        if channel.parent == Some(self.0) {
            channel.parent = None;
        }
    }

    ghost keeps_key = { λ change c. refl };
}

fn drop_thread_messages(messages: &mut MessageHeads, threads: &[Thread], channel: Snowflake)
    requires { IsById thread_id threads.now }
    ensures { messages.new ≡ filter (stands_in_no_thread threads.now channel) messages.old }
{
    for thread in threads {
        if thread.parent == channel {
            messages.remove_in(thread.id);
        }
    }
}

fn drop_messages(messages: &mut MessageHeads, threads: &ById<Thread>, channel: Snowflake)
    ensures { messages.new ≡ filter (stands_outside threads.now channel) messages.old }
{
    messages.remove_in(channel);
    drop_thread_messages(messages, threads.as_slice(), channel);
}

fn drop_threads(threads: &mut ById<Thread>, channel: Snowflake)
    ensures outside { threads.new ≡ filter (is_outside channel) threads.old }
    ensures ascending { IsById thread_id threads.old }
{
    threads.retain(|thread| thread.parent != channel);
}

fn drop_voices(voices: &mut ById<Voice>, channel: Snowflake)
    ensures outside { voices.new ≡ filter (speaks_outside channel) voices.old }
    ensures ascending { IsById voice_id voices.old }
{
    voices.retain(|voice| voice.channel != channel);
}

/// Deletes the channel, with all that is in it.
pub fn apply(guild: &mut Guild, channel: Snowflake)
    requires open { guild.old.opened ≡ true }
    requires accepted { channel_delete_verdict guild.old channel ≡ None }
    ensures { guild.new ≡ channel_deleted guild.old channel }
{
    drop_messages(&mut guild.messages, &guild.threads, channel);
    drop_threads(&mut guild.threads, channel);
    drop_voices(&mut guild.voices, channel);
    guild.channels.remove(channel.0);
    guild.channels.change_all(Orphan(channel));
}
