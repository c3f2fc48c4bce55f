//! What the edits of roles and members owe to a viewer that is served before and after them
//! (Gateway Events, Guild Role Create to Guild Member Remove).
#![tactic(auto)]

pub mod dispatches;
pub mod ends;
pub mod law;
pub mod members;
pub mod roles;

pub use dispatches::add_dispatches;
pub use ends::{MemberEnd, RoleMemberNote, asks_sights, note};
