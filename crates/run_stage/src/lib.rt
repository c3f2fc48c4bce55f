//! What the parts of a run of threads begin with: the posts of two actors with a pass for each sender, a
//! hub for each guild with its writer and its readers, and the seats at a stop flag. It also starts the parts, and
//! gives the word by which they begin.
#![tactic(auto)]

mod actors;
mod beginning;
mod dealing;
mod ground;
mod hubs;
mod posts;
mod seats;

pub use actors::actor;
pub use beginning::{Begun, begin_all};
pub use dealing::{deal_in_two, take_next};
pub use ground::Ground;
pub use hubs::{Hubs, open_hubs};
pub use posts::{OpenPosts, open_posts};
pub use seats::Seats;
