//! A client of a load: it follows the gateway until all its guilds have one name, drops its link now and
//! then, and stops where another part of the load has ended by a fault.
#![tactic(auto)]

mod agreement;
mod ended_client;
mod load_client;
mod name_goal;
mod watch;

pub use agreement::{agree, agrees, viewer};
pub use ended_client::EndedClient;
pub use load_client::LoadClient;
pub use name_goal::NameGoal;
