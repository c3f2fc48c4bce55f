//! What a sender hands to an actor.

use edit_apply::Edit;
use snowflake_id::Snowflake;

/// An edit of a guild that a sender asks for.
#[derive(Drop)]
pub struct Request {
    /// The sender at its post, from 0.
    pub sender: u8,
    /// The number of the request among those of its sender at its post, from 1.
    pub number: u64,
    /// The guild to be changed.
    pub guild: Snowflake,
    /// The change.
    pub edit: Edit,
}
