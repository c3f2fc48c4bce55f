//! The record of a guild: its roles, members, channels, threads, voice states, presences and the
//! heads of its messages, as plain lists that ascend by id.
#![tactic(auto)]

pub mod changes;
pub mod channel;
mod channel_index;
pub mod guild;
pub mod limits;
pub mod member;
pub mod message;
pub mod message_heads;
pub mod moment;
pub mod part_count;
pub mod presence;
pub mod role;
pub mod rules;
pub mod thread;
pub mod user;
pub mod verdict;
pub mod voice;

pub use channel::{Channel, ChannelKind, Overwrite, OverwriteKind, Overwrites};
pub use guild::Guild;
pub use member::Member;
pub use message::MessageHead;
pub use message_heads::MessageHeads;
pub use moment::{BadMoment, Moment};
pub use part_count::{PartCount, TooManyParts};
pub use presence::{Presence, ShownStatus, Status};
pub use role::Role;
pub use thread::{Thread, ThreadKind, ThreadMember};
pub use user::User;
pub use verdict::Verdict;
pub use voice::Voice;
