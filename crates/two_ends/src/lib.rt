//! The law of two ends: what a client holds of its session, whatever is lost between it and its worker and however
//! often it connects again. Definitions, and the law as a function whose contract is the statement.
#![tactic(auto)]

pub mod law;

pub use law::two_ends;
