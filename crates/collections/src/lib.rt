//! Texts, lists, and lists of records that ascend by id, each seen in a clause as a plain list.
#![tactic(auto)]

pub mod by_id;
mod put_each;
pub mod seq;
pub mod text;

pub use by_id::{ById, Change, Duplicate, Keyed, find};
pub use seq::Seq;
pub use text::Text;
