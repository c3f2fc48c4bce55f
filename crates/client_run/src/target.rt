//! Where a client connects next.

/// Where a client connects next (Gateway, Resuming).
#[derive(Clone, Copy, Debug, PartialEq, Eq)]
pub enum Target {
    /// To the first URL.
    First,
    /// To `resume_gateway_url`, which READY gave.
    Resume,
}
