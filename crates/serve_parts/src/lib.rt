//! The parts of a server as one kind of task: actors, scripts that read their files as they come, and
//! workers, what each gives, and what they gave, kind by kind.
#![tactic(auto)]

mod file_part;
mod laws;
mod serve_part;
mod serve_threads;

pub use file_part::{FileDone, FilePart};
pub use laws::split_by_kind;
pub use serve_part::{DoorDone, DoorPart, ServeDone, ServePart};
pub use serve_threads::with_serve_threads;
