//! All that a load begins with: its posts, hubs and doors, and the parts that run beside one another.
#![tactic(auto)]

mod actors;
mod bots;
mod clients;
mod doors;
mod drafting;
mod scripts;
mod stage;
mod supply;
mod turns;
mod workers;

pub use clients::intents_of;
pub use stage::{Stage, set_stage};
