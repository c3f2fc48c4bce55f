//! Workers that follow the logs of guilds and serve sessions. The model of a world of them, and its law, stand in
//! `world_law`.
#![tactic(auto)]

mod due;
mod form_index;
pub mod io;
mod keeping;
mod look;
mod made;
mod notes;
mod ready;
mod recipients;
pub mod tell;
mod wish;
pub mod wished_edit;
pub mod worker;

pub use io::{Input, Output, StepFault};
pub use made::Made;
pub use wished_edit::WishedEdit;
pub use worker::Worker;
