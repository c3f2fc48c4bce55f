//! Plays step files on four workers, from a source of bytes to a sink of bytes.
#![tactic(auto)]

mod fault;
mod file_runner;
mod guild_log;
mod lagged;
mod opened;
mod playing;
mod server;
mod texts;
mod worker_slot;
mod writing;

pub use fault::PlayFault;
pub use playing::play;
pub use writing::write_stop;
