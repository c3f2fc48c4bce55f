//! Whom a dispatch about a channel or a thread is shown, and whom the content of a message is for.
#![tactic(auto)]

pub mod redacted;
pub mod shown;

pub use redacted::{reads, redact};
pub use shown::{shows, shows_by};
