//! The post: scripts and workers on several threads hand edits to one actor. The actor takes what
//! each of them sent whole, once, and in order.
#![tactic(auto)]

mod laws;
mod mark_view;
mod marks;
mod post;
mod queue;
mod queue_view;
mod request;
mod send_pass;
mod send_refused;
mod take_pass;

pub use laws::{taken_is_a_merge, taken_is_a_prefix};
pub use post::Post;
pub use request::Request;
pub use send_pass::SendPass;
pub use send_refused::SendRefused;
pub use take_pass::TakePass;
