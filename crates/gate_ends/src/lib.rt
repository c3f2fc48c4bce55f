//! What the ends of a load and of a server have in common: scripts and workers that have ended, what is gathered
//! of them and of the actors, and how a text goes out.
#![tactic(auto)]

mod ending;
mod reports;
mod results;
mod senders;
mod writing;

pub use ending::{ScriptEnd, WorkerEnd};
pub use senders::{Left, Senders};
pub use writing::write_out;
