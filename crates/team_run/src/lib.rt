//! Many tasks over one spawner: all are started before any is finished, and no task that was started is
//! lost.
#![tactic(auto)]

mod adding;
mod finishing;
mod starting;

pub use adding::{PartOf, add, add_each};
pub use finishing::finish_all;
pub use starting::start_all;
