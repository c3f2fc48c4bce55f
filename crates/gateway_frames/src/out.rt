//! The payloads that the gateway sends beside dispatches.

/// What the gateway sends beside other dispatches (Gateway, Payload structure).
#[derive(Clone, Copy, Debug, PartialEq, Eq)]
pub enum Out {
    /// Hello (op 10), with the interval of heartbeats in milliseconds.
    Hello(u64),
    /// Heartbeat ACK (op 11).
    Ack,
    /// Invalid Session (op 9), which says whether the session can be resumed.
    Invalid(bool),
    /// Reconnect (op 7): the client has to connect again.
    Reconnect,
    /// The dispatch RESUMED, with its number.
    Resumed(u64),
}
