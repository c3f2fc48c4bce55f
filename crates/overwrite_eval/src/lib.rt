//! What a member may do and see, computed on whole masks.
#![tactic(auto)]

mod bounded;
mod by_masks;
mod mask_source;
mod masks;
mod shown;
mod sight;
mod standing;
mod tiers;

pub use bounded::{base_mask, channel_mask, mask_from, sees_channel, sees_thread};
pub use by_masks::{sees_channel_by, sees_thread_by};
pub use mask_source::MaskSource;
pub use masks::part_mask;
pub use shown::{shown_channels, shown_voices};
pub use standing::StandingRef;
