//! A voice state.

use collections::Keyed;
use snowflake_id::Snowflake;

/// A user in a voice channel (Voice Resource, Voice State Object).
#[derive(Clone, Copy, PartialEq, Eq, Debug)]
pub struct Voice {
    pub user: Snowflake,
    pub channel: Snowflake,
    pub self_mute: bool,
    pub self_deaf: bool,
}

impl Keyed for Voice {
    ghost key = { λ v. v.user };

    fn key(&self) -> u64 {
        self.user.0
    }
}
