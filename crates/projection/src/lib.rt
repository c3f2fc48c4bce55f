//! What a viewer may hold of a guild, computed from scratch.
#![tactic(auto)]

mod members;
mod threads;
mod view;

pub use dispatch_types::{GuildView, OpenView, ThreadView, Viewer, serves};
pub use view::project;
