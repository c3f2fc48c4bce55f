//! The parts of a run that are not clients: actors, scripts and workers. Each waits for the word by which
//! all begin, and looks at the stop flag. If another part has set it, the part stops before it begins.
//! Else it does its work, and sets the flag after a fault.
#![tactic(auto)]

mod acting;
mod actor_part;
mod bell_clock;
mod ending;
mod posts;
mod script_part;
mod seats;
mod start_word;
mod worker_part;

pub use actor_part::{ActorDone, ActorPart};
pub use ending::Ending;
pub use posts::Posts;
pub use script_part::{ScriptDone, ScriptPart};
pub use start_word::StartWord;
pub use worker_part::{WorkerDone, WorkerPart};
