//! What is or was shown to a member, whatever it is known by.

ghost use Rattle.std.specs.Prelude.{◌≡◌};
ghost use Rattle.thread_sync.specs.Shown.{Shown, by_standing};

use guild_model::Thread;
use overwrite_eval::StandingRef;
use snowflake_id::Snowflake;

/// What knows which channels and which active threads are shown to a member, or were shown to it before
/// a change (Permissions, VIEW_CHANNEL; Threads, Private Threads).
pub trait Shows {
    /// Which channels and threads.
    ghost shown: { Self → Shown };

    /// Whether a channel is shown.
    fn shows_channel(&self, channel: Snowflake) -> bool
        ensures { result ≡ (shown self.now).channel channel };

    /// Whether a thread is an active one that is shown.
    fn shows_thread(&self, thread: &Thread) -> bool
        ensures { result ≡ (shown self.now).thread thread.now };
}

/// By a record: a mask a call.
impl Shows for StandingRef<'_> {
    ghost shown = { by_standing };

    fn shows_channel(&self, channel: Snowflake) -> bool {
        self.sees(channel)
    }

    fn shows_thread(&self, thread: &Thread) -> bool {
        !thread.archived && self.sees_thread(thread)
    }
}
