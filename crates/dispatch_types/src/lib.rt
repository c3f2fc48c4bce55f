//! Dispatches as they are sent, viewers, and what a viewer may hold of a guild.
#![tactic(auto)]

pub mod channels;
pub mod dispatch;
pub mod guilds;
pub mod members;
pub mod messages;
pub mod presences;
pub mod ready;
pub mod roles;
pub mod serving;
pub mod threads;
pub mod view;
pub mod viewer;

pub use channels::{ChannelObject, OverwriteObject};
pub use dispatch::Dispatch;
pub use guilds::{GuildCreate, GuildDelete, GuildUpdate};
pub use members::{GuildMember, GuildMemberRemove, MemberObject, MembersChunk};
pub use messages::{MessageDelete, MessageObject, Reaction, TypingStart};
pub use presences::{PresenceObject, VoiceObject, VoiceStateUpdate};
pub use ready::Ready;
pub use roles::{GuildRole, GuildRoleDelete};
pub use serving::{served, serves};
pub use threads::{
    BadCount, JoinedThread, ThreadCount, ThreadCreate, ThreadDelete, ThreadListSync,
    ThreadMemberObject, ThreadMembersUpdate, ThreadObject,
};
pub use view::{GuildView, OpenView, ThreadView};
pub use viewer::{BadShard, Shard, Viewer};
