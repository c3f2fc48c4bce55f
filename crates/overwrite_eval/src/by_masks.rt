//! What a user sees, by what answers its masks.

ghost use Rattle.std.specs.Prelude.{◌≡◌, ℕ};
ghost use Rattle.guild_model.specs.Record.{Record};
ghost use Rattle.guild_model.specs.Sight.{sees_channel};
ghost use Rattle.overwrite_eval.specs.MaskIn.{sees_as};

use crate::mask_source::MaskSource;
use crate::sight::{may_view, shows_thread};
use guild_model::Thread;
use snowflake_id::Snowflake;

/// Whether a user sees a channel, by its masks (Permissions, VIEW_CHANNEL). A stranger sees none, and nobody
/// one that does not exist.
pub fn sees_channel_by<M: MaskSource>(masks: &M, channel: Snowflake) -> bool
    ensures { (s : Record) (user : ℕ) → M.stands_for masks.now s user → result ≡ sees_channel s user channel }
{
    match masks.mask(channel) {
        Some(mask) => may_view(mask),
        None => false,
    }
}

/// Whether a user sees a thread, archived or not, by its masks (Threads, Private Threads). A stranger sees
/// none.
pub fn sees_thread_by<M: MaskSource>(masks: &M, user: Snowflake, thread: &Thread) -> bool
    ensures { (s : Record) → M.stands_for masks.now s user → result ≡ sees_as s user thread.now }
{
    match masks.mask(thread.parent) {
        Some(mask) => shows_thread(mask, thread.kind, thread.members.contains(user.0)),
        None => false,
    }
}
