//! The connections and sessions of one worker, and the reply to each frame.
#![tactic(auto)]

mod authorize;
mod bot;
mod conn;
mod dispatches;
mod ends;
mod fault;
mod frames;
mod holder;
mod ids;
mod kept;
mod reply;
mod resume;
mod sessions;
mod window;

pub use bot::{Bot, copies_of};
pub use fault::{SessionFault, Spent};
pub use holder::Holder;
pub use ids::session_id;
pub use reply::{Mark, Reply};
pub use sessions::Sessions;
