//! Why a post refuses a request.

use thiserror::Error;

/// Why a post refuses a request. The sender gets the request back.
#[derive(Clone, Copy, Debug, PartialEq, Eq, Error)]
pub enum SendRefused {
    /// The sender has sent as many requests as a pass can number.
    #[error("no further request of the sender can be numbered")]
    Spent,
    /// Memory ran out.
    #[error("out of memory")]
    Memory,
}
