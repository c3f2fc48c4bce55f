//! The names and the fields of edits in step files, read and written.
#![tactic(auto)]

pub mod edits;
mod fault;
pub mod fields;
pub mod members;
mod names;

pub use fault::LineFault;
pub use names::{
    ChannelEditName, EditName, GuildEditName, MessageEditName, RoleMemberEditName, ThreadEditName,
    VoicePresenceEditName,
};
