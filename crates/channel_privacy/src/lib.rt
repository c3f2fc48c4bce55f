//! Channels that a guild withholds from those who do not see them: what of an edit is told where they are, and
//! what a client then holds.
#![tactic(auto)]

mod before;
mod law;
mod losses;
mod told;
mod withholding;

pub use before::ShownBefore;
pub use law::note_is_enough;
pub use withholding::withhold;
