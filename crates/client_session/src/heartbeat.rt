//! When a client sends its next heartbeat.

ghost use Rattle.std.specs.Prelude.{◌≡◌};
ghost use Rattle.client_session.specs.Table.{is_due_at};

/// The heartbeats of a connection that had Hello (Gateway, Sending Heartbeats).
#[derive(Clone, Copy, PartialEq, Eq, Debug)]
pub struct Heartbeat {
    /// The milliseconds between two heartbeats.
    pub interval_ms: u64,
    /// The moment of Hello or of the last heartbeat.
    pub since: u64,
}

/// Whether the next heartbeat is due; without Hello none is.
pub(crate) fn is_due_at(heartbeat: Option<Heartbeat>, now: u64) -> bool
    ensures { result ≡ is_due_at heartbeat now }
{
    let Some(heartbeat) = heartbeat else {
        return false;
    };
    match heartbeat.since.checked_add(heartbeat.interval_ms) {
        Some(due) => due <= now,
        None => false,
    }
}
