//! Moments as text, and text as moments.
#![tactic(auto)]

mod civil;
mod digits;
mod reading;
mod writing;

pub use reading::moment_of;
pub use writing::moment_text;
