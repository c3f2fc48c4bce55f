//! The parts of a load as one kind of task: actors, scripts, workers and clients, what each gives, a team
//! that runs them, and what they gave, kind by kind.
#![tactic(auto)]

mod client_part;
mod function;
mod laws;
mod load_part;
mod part_threads;
mod task_team;
mod team_work;

pub use client_part::{ClientDone, ClientPart};
pub use function::{Closure, Function};
pub use laws::split_by_kind;
pub use load_part::{DoorWorker, DoorWorkerDone, LoadDone, LoadPart};
pub use part_threads::with_part_threads;
pub use task_team::{Started, TaskTeam};
pub use team_work::{TeamWork, with_threads};
