//! Permissions as sets of bits: what a role's or an overwrite's number allows or denies.
#![tactic(auto)]

mod flags;
mod named;
mod operators;
mod perms;

pub use perms::{BadMask, Perms};
