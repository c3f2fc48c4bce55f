//! The masks of a user in a guild, kept from edit to edit.
#![tactic(auto)]

mod channel_mask;
mod mask_change;
mod masks;

pub use channel_mask::ChannelMask;
pub use mask_change::{MaskChange, others_stay};
pub use masks::Masks;
