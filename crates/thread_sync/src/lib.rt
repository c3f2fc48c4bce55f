//! Which threads a change of permissions uncovers to a bot, and what a client then holds.
#![tactic(auto)]

pub mod by_lists;
pub mod by_masks;
pub mod by_sights;
mod channel_sight;
pub mod in_channel;
pub mod law;
pub mod list_sync;
pub mod seen;
pub mod shown;

pub use by_lists::{gained, uncovered};
pub use by_masks::sights_by;
pub use by_sights::{sights_of, uncovered_between, uncovered_by_sights};
pub use channel_sight::ChannelSight;
pub use in_channel::{sight_of, uncovered_in_channel};
pub use list_sync::own_membership;
pub use seen::{Seen, visible};
pub use shown::Shows;
