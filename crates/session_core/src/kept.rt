//! What the code keeps of a connection and of a session.

ghost use Rattle.std.specs.Prelude.{◌≡◌, ℕ};

use crate::Holder;
use crate::window::Window;
use collections::Text;
use dispatch_types::Viewer;
use replay_ring::Ring;

/// An open connection.
pub struct Connection {
    /// The moment of its last heartbeat, at first of its opening, in milliseconds.
    pub last_heartbeat_ms: u64,
    /// The moments of its latest frames.
    pub times: Window,
    /// The number of its session.
    pub session: Option<u32>,
}

impl Drop for Connection {
    fn drop(self) {
        let Connection {
            last_heartbeat_ms: _,
            times,
            session: _,
        } = self;
        drop(times);
    }
}

/// Whether a session has a connection, or since when it has none.
#[derive(Clone, Copy, PartialEq, Eq, Debug)]
pub enum Condition {
    /// The session has this connection.
    Attached(u32),
    /// The session has had none since this moment.
    Detached(u64),
}

/// A session that has not ended.
pub struct Session {
    /// The token of its bot.
    pub token: Text,
    /// Whom it is for.
    pub holder: Holder,
    /// The same, as its dispatches go by.
    pub viewer: Viewer,
    pub condition: Condition,
    /// The buffer for Resume.
    pub sent: Ring,
}

impl Drop for Session {
    fn drop(self) {
        let Session {
            token,
            holder,
            viewer: _,
            condition: _,
            sent,
        } = self;
        drop(token);
        drop(holder);
        drop(sent);
    }
}

/// The milliseconds without a heartbeat after which a connection is closed: two intervals.
const SILENT_AFTER_MS: u64 = 82_500;

/// The milliseconds without a connection after which a session ends.
const OVERDUE_AFTER_MS: u64 = 180_000;

impl Connection {
    ghost use Rattle.session_core.specs.Ends.{is_silent};
    ghost use Rattle.session_core.specs.Kept.{connection_of};

    /// Whether the connection has had no heartbeat for two intervals.
    pub fn is_silent(&self, now: u64) -> bool
        ensures { (n : ℕ) → result ≡ is_silent now (connection_of (n, self.now)) }
    {
        now.saturating_sub(self.last_heartbeat_ms) >= SILENT_AFTER_MS
    }
}

impl Session {
    ghost use Rattle.session_core.specs.Kept.{new_session};

    /// A session on a connection, with what it keeps for a resume.
    pub fn new(token: Text, holder: Holder, viewer: Viewer, conn: u32, sent: Ring) -> Session
        ensures { result ≡ new_session token holder viewer conn sent }
    {
        Session {
            token,
            holder,
            viewer,
            condition: Condition::Attached(conn),
            sent,
        }
    }
}

impl Condition {
    ghost use Rattle.session_core.specs.Kept.{conn_of, condition_of};
    ghost use Rattle.session_core.specs.Ends.{is_overdue};

    /// Whether the session has had no connection for three minutes.
    pub fn is_overdue(self, now: u64) -> bool
        ensures { result ≡ is_overdue now (condition_of self) }
    {
        match self {
            Condition::Attached(_) => false,
            Condition::Detached(since) => now.saturating_sub(since) >= OVERDUE_AFTER_MS,
        }
    }

    /// The connection of the session.
    pub fn conn(self) -> Option<u32>
        ensures { result ≡ conn_of self }
    {
        match self {
            Condition::Attached(conn) => Some(conn),
            Condition::Detached(_) => None,
        }
    }
}
