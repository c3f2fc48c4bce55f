//! All that a server begins with: its posts, its hubs and its stop flag, and the parts that run beside one
//! another.
#![tactic(auto)]

mod actors;
mod drafting;
mod lent;
mod scripts;
mod stage;
mod supply;
mod urls;
mod workers;

pub use lent::Lent;
pub use stage::{Stage, set_stage};
