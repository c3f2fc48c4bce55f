//! What a house is asked for.

use crate::name::Name;

/// What a house was asked for.
#[derive(Drop)]
pub enum Asked {
    /// The source of that name.
    Source(Name),
    /// A door at that port, and the most links that it is to give.
    Door(u16, u32),
    /// A clock.
    Clock,
}
