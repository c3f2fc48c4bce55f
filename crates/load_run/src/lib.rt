//! A load: scripts, actors, workers and clients at once, each on a thread of its own, and a summary that is
//! written when all have ended.
#![tactic(auto)]

mod agreeing;
mod ends;
mod fault;
mod faults;
mod loading;
mod parts;
mod playing;
mod rooms;
mod running;
mod setting;
mod sorting;
mod summing;

pub use fault::LoadFault;
pub use loading::load;
