//! Whether two views of a guild are equal, and whether two dispatches are.
#![tactic(auto)]

mod dispatches;
mod equality;
mod fields;
mod lists;
mod objects;
mod plain;
mod sent;
mod views;

pub use dispatches::same_list;
pub use equality::SameAs;
pub use lists::same_items;
pub use views::{same, same_or_none};
