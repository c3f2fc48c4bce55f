//! Hooks of a bot: functions that its author keeps for kinds of dispatches.
#![tactic(auto)]

pub mod hooks;
pub mod kept;
mod kept_for;
pub mod kind_set;
pub mod note;
pub mod rule;

pub use hooks::Hooks;
pub use kept::{Hook, Kept};
pub use kind_set::KindSet;
pub use note::HookNote;
pub use rule::HookRule;
