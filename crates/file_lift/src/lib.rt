//! Writes a step file in its newest version, from a source of bytes to a sink of bytes.
#![tactic(auto)]

mod fault;
mod lifter;
mod lifting;
mod writing;

pub use fault::LiftFault;
pub use lifting::lift;
