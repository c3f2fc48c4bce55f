//! The kinds of dispatches, and their names.

ghost use Rattle.std.specs.Prelude.{◌≡◌, ℕ, Some, IfSome};

use std::fmt;

/// The kind of a dispatch (Gateway Events, Receive Events).
#[derive(Clone, Copy, PartialEq, Eq, PartialOrd, Ord, Debug)]
pub enum Kind {
    /// The session has begun.
    Ready,
    /// The session goes on after a resume.
    Resumed,
    /// A guild has become available, or the bot has joined it.
    GuildCreate,
    /// A guild was changed.
    GuildUpdate,
    /// A guild has become unavailable, or the bot has left it.
    GuildDelete,
    /// A role was created.
    GuildRoleCreate,
    /// A role was changed.
    GuildRoleUpdate,
    /// A role was deleted.
    GuildRoleDelete,
    /// A channel was created.
    ChannelCreate,
    /// A channel was changed.
    ChannelUpdate,
    /// A channel was deleted.
    ChannelDelete,
    /// A thread was created, or the bot was added to it.
    ThreadCreate,
    /// A thread was changed.
    ThreadUpdate,
    /// A thread was deleted.
    ThreadDelete,
    /// The bot has gained access to channels, with their threads.
    ThreadListSync,
    /// Members were added to or removed from a thread.
    ThreadMembersUpdate,
    /// A user has joined a guild.
    GuildMemberAdd,
    /// A member was changed.
    GuildMemberUpdate,
    /// A user has left a guild.
    GuildMemberRemove,
    /// Answer to a request for members.
    GuildMembersChunk,
    /// A user has joined, left or moved in voice.
    VoiceStateUpdate,
    /// A user's presence was changed.
    PresenceUpdate,
    /// A message was created.
    MessageCreate,
    /// A message was edited.
    MessageUpdate,
    /// A message was deleted.
    MessageDelete,
    /// A user has reacted to a message.
    MessageReactionAdd,
    /// A user's reaction was removed.
    MessageReactionRemove,
    /// A user has begun to type.
    TypingStart,
}

impl Kind {
    ghost use Rattle.intent_set.specs.Kind.{name_of, kinds, kind_of};

    /// Every kind, in the order of declaration.
    pub const ALL: [Kind; 28] = [
        Kind::Ready,
        Kind::Resumed,
        Kind::GuildCreate,
        Kind::GuildUpdate,
        Kind::GuildDelete,
        Kind::GuildRoleCreate,
        Kind::GuildRoleUpdate,
        Kind::GuildRoleDelete,
        Kind::ChannelCreate,
        Kind::ChannelUpdate,
        Kind::ChannelDelete,
        Kind::ThreadCreate,
        Kind::ThreadUpdate,
        Kind::ThreadDelete,
        Kind::ThreadListSync,
        Kind::ThreadMembersUpdate,
        Kind::GuildMemberAdd,
        Kind::GuildMemberUpdate,
        Kind::GuildMemberRemove,
        Kind::GuildMembersChunk,
        Kind::VoiceStateUpdate,
        Kind::PresenceUpdate,
        Kind::MessageCreate,
        Kind::MessageUpdate,
        Kind::MessageDelete,
        Kind::MessageReactionAdd,
        Kind::MessageReactionRemove,
        Kind::TypingStart,
    ];

    /// The name in the field `t` of a payload.
    pub fn name(self) -> &'static str
        ensures { result.now ≡ name_of self }
    {
        match self {
            Kind::Ready => "READY",
            Kind::Resumed => "RESUMED",
            Kind::GuildCreate => "GUILD_CREATE",
            Kind::GuildUpdate => "GUILD_UPDATE",
            Kind::GuildDelete => "GUILD_DELETE",
            Kind::GuildRoleCreate => "GUILD_ROLE_CREATE",
            Kind::GuildRoleUpdate => "GUILD_ROLE_UPDATE",
            Kind::GuildRoleDelete => "GUILD_ROLE_DELETE",
            Kind::ChannelCreate => "CHANNEL_CREATE",
            Kind::ChannelUpdate => "CHANNEL_UPDATE",
            Kind::ChannelDelete => "CHANNEL_DELETE",
            Kind::ThreadCreate => "THREAD_CREATE",
            Kind::ThreadUpdate => "THREAD_UPDATE",
            Kind::ThreadDelete => "THREAD_DELETE",
            Kind::ThreadListSync => "THREAD_LIST_SYNC",
            Kind::ThreadMembersUpdate => "THREAD_MEMBERS_UPDATE",
            Kind::GuildMemberAdd => "GUILD_MEMBER_ADD",
            Kind::GuildMemberUpdate => "GUILD_MEMBER_UPDATE",
            Kind::GuildMemberRemove => "GUILD_MEMBER_REMOVE",
            Kind::GuildMembersChunk => "GUILD_MEMBERS_CHUNK",
            Kind::VoiceStateUpdate => "VOICE_STATE_UPDATE",
            Kind::PresenceUpdate => "PRESENCE_UPDATE",
            Kind::MessageCreate => "MESSAGE_CREATE",
            Kind::MessageUpdate => "MESSAGE_UPDATE",
            Kind::MessageDelete => "MESSAGE_DELETE",
            Kind::MessageReactionAdd => "MESSAGE_REACTION_ADD",
            Kind::MessageReactionRemove => "MESSAGE_REACTION_REMOVE",
            Kind::TypingStart => "TYPING_START",
        }
    }

    /// The kind of this name; `None` exactly for a text that is no kind's name.
    #[tactic(auto, unfolding(crate::specs::Kind::kind_of))]
    pub fn of_name(name: &str) -> Option<Kind>
        ensures value { result ≡ kind_of name.now }
    {
        Kind::ALL.iter().copied().find(|kind| name == kind.name())
    }
}

/// Written as the name.
impl fmt::Display for Kind {
    ghost use Rattle.intent_set.specs.Kind.{name_of};

    ghost output = { λ kind. Some (name_of kind) };

    fn fmt<W: fmt::Write>(&self, f: &mut fmt::Formatter<W>) -> fmt::Result {
        write!(f, "{}", self.name())
    }
}
