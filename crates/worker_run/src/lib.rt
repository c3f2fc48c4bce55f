//! The worker's loop: it serves its connections from the logs of hubs, in turns.
#![tactic(auto)]

mod draining;
mod fault;
mod intake;
mod looks;
mod report;
mod running;
mod serving;
mod steps;
mod turn;
mod working;

pub use fault::WorkFault;
pub use report::WorkReport;
pub use worker_core::{Input, Worker};
pub use working::work;
