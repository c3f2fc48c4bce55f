//! The loop in which a client follows the gateway: it dials, takes turns on the link that it gets, and
//! dials again, until a watcher has seen enough.
#![tactic(auto)]

mod acting;
mod driven;
mod driving;
mod ending;
mod fault;
mod hearing;
mod losing;
mod route;
mod target;
mod turns;
mod watch;
mod wire;

pub use driven::Driven;
pub use driving::drive;
pub use fault::DriveFault;
pub use watch::{Wants, Watch};
