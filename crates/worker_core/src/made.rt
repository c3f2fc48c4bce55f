//! How many sessions and dispatches a worker has made.

ghost use Rattle.std.specs.Prelude.{◌≡◌, ◌<◌, ◌+◌, ◌-◌, ◌^◌, Some, length, min, option_map, slice_get};
ghost use Rattle.worker_core.specs.Made.{last_number, live_dispatches};

use session_core::Sessions;

/// What a worker has made.
#[derive(Clone, Copy, PartialEq, Eq, Debug)]
pub struct Made {
    /// The number of sessions, also of those that have ended.
    pub sessions: u64,
    /// The number of dispatches of all these sessions, or 2^64 - 1 if there are more.
    pub dispatches: u64,
}

/// The number of the last dispatch of the live session at an index.
fn last_at(sessions: &Sessions, index: usize) -> u64
    requires { index < length sessions.now.sessions }
    ensures { option_map last_number (slice_get sessions.now.sessions index) ≡ Some result }
{
    match sessions.next_at(index) {
        Ok(number) => number.saturating_sub(1),
        Err(_) => u64::MAX,
    }
}

/// The number of dispatches of the live sessions.
pub fn live_dispatches(sessions: &Sessions) -> u128
    ensures { result ≡ live_dispatches sessions.now.sessions }
{
    let mut count = 0;
    for index in 0..sessions.len() {
        count += u128::from(last_at(sessions, index));
    }
    count
}

/// A count with more, or 2^64 - 1 if it is above that.
pub fn counted_more(count: u64, more: u128) -> u64
    ensures { result ≡ min (count + more) (2 ^ 64 - 1) }
{
    let sum = u128::from(count).saturating_add(more);
    sum.min(u128::from(u64::MAX)) as u64
}
