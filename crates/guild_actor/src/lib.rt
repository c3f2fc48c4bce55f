//! A guild's edits in one order: an actor publishes what it takes from a post, request by request, in
//! the logs of their guilds, and seals the logs when every sender has ended.
#![tactic(auto)]

mod acting;
mod desk;
mod publishing;
mod report;
mod seals;

pub use acting::act;
pub use report::ActReport;
