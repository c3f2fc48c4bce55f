//! The names of edits.

ghost use Rattle.std.specs.Prelude.{◌≡◌};
ghost use Rattle.edit_fields.specs.Names.{edit_named, guild_edit_text, role_member_edit_text, channel_edit_text, thread_edit_text, voice_presence_edit_text, message_edit_text, name_text};

/// An edit of the guild itself, by its name.
#[derive(Clone, Copy, PartialEq, Eq, Debug)]
pub enum GuildEditName {
    GuildOpen,
    GuildRename,
    GuildOwner,
    GuildOutage,
    GuildBack,
    GuildPrivate,
}

/// An edit of roles or members, by its name.
#[derive(Clone, Copy, PartialEq, Eq, Debug)]
pub enum RoleMemberEditName {
    RoleCreate,
    RoleUpdate,
    RoleDelete,
    MemberAdd,
    MemberRemove,
    MemberNick,
    MemberTimeout,
    MemberRoleAdd,
    MemberRoleRemove,
}

/// An edit of channels or their overwrites, by its name.
#[derive(Clone, Copy, PartialEq, Eq, Debug)]
pub enum ChannelEditName {
    ChannelCreate,
    ChannelUpdate,
    ChannelDelete,
    OverwriteSet,
    OverwriteDelete,
}

/// An edit of threads, by its name.
#[derive(Clone, Copy, PartialEq, Eq, Debug)]
pub enum ThreadEditName {
    ThreadCreate,
    ThreadRename,
    ThreadArchive,
    ThreadUnarchive,
    ThreadDelete,
    ThreadJoin,
    ThreadLeave,
}

/// An edit of voice states or presences, by its name.
#[derive(Clone, Copy, PartialEq, Eq, Debug)]
pub enum VoicePresenceEditName {
    VoiceSet,
    PresenceSet,
}

/// An edit of messages, reactions or typing, by its name.
#[derive(Clone, Copy, PartialEq, Eq, Debug)]
pub enum MessageEditName {
    MessageCreate,
    MessageUpdate,
    MessageDelete,
    ReactionAdd,
    ReactionRemove,
    Typing,
}

/// An edit, by its name.
#[derive(Clone, Copy, PartialEq, Eq, Debug)]
pub enum EditName {
    Guild(GuildEditName),
    RoleMember(RoleMemberEditName),
    Channel(ChannelEditName),
    Thread(ThreadEditName),
    VoicePresence(VoicePresenceEditName),
    Message(MessageEditName),
}

impl GuildEditName {
    /// The name of the edit.
    pub fn text(self) -> &'static str
        ensures { result.now ≡ guild_edit_text self }
    {
        match self {
            GuildEditName::GuildOpen => "guild_open",
            GuildEditName::GuildRename => "guild_rename",
            GuildEditName::GuildOwner => "guild_owner",
            GuildEditName::GuildOutage => "guild_outage",
            GuildEditName::GuildBack => "guild_back",
            GuildEditName::GuildPrivate => "guild_private",
        }
    }
}

impl RoleMemberEditName {
    /// The name of the edit.
    pub fn text(self) -> &'static str
        ensures { result.now ≡ role_member_edit_text self }
    {
        match self {
            RoleMemberEditName::RoleCreate => "role_create",
            RoleMemberEditName::RoleUpdate => "role_update",
            RoleMemberEditName::RoleDelete => "role_delete",
            RoleMemberEditName::MemberAdd => "member_add",
            RoleMemberEditName::MemberRemove => "member_remove",
            RoleMemberEditName::MemberNick => "member_nick",
            RoleMemberEditName::MemberTimeout => "member_timeout",
            RoleMemberEditName::MemberRoleAdd => "member_role_add",
            RoleMemberEditName::MemberRoleRemove => "member_role_remove",
        }
    }
}

impl ChannelEditName {
    /// The name of the edit.
    pub fn text(self) -> &'static str
        ensures { result.now ≡ channel_edit_text self }
    {
        match self {
            ChannelEditName::ChannelCreate => "channel_create",
            ChannelEditName::ChannelUpdate => "channel_update",
            ChannelEditName::ChannelDelete => "channel_delete",
            ChannelEditName::OverwriteSet => "overwrite_set",
            ChannelEditName::OverwriteDelete => "overwrite_delete",
        }
    }
}

impl ThreadEditName {
    /// The name of the edit.
    pub fn text(self) -> &'static str
        ensures { result.now ≡ thread_edit_text self }
    {
        match self {
            ThreadEditName::ThreadCreate => "thread_create",
            ThreadEditName::ThreadRename => "thread_rename",
            ThreadEditName::ThreadArchive => "thread_archive",
            ThreadEditName::ThreadUnarchive => "thread_unarchive",
            ThreadEditName::ThreadDelete => "thread_delete",
            ThreadEditName::ThreadJoin => "thread_join",
            ThreadEditName::ThreadLeave => "thread_leave",
        }
    }
}

impl VoicePresenceEditName {
    /// The name of the edit.
    pub fn text(self) -> &'static str
        ensures { result.now ≡ voice_presence_edit_text self }
    {
        match self {
            VoicePresenceEditName::VoiceSet => "voice_set",
            VoicePresenceEditName::PresenceSet => "presence_set",
        }
    }
}

impl MessageEditName {
    /// The name of the edit.
    pub fn text(self) -> &'static str
        ensures { result.now ≡ message_edit_text self }
    {
        match self {
            MessageEditName::MessageCreate => "message_create",
            MessageEditName::MessageUpdate => "message_update",
            MessageEditName::MessageDelete => "message_delete",
            MessageEditName::ReactionAdd => "reaction_add",
            MessageEditName::ReactionRemove => "reaction_remove",
            MessageEditName::Typing => "typing",
        }
    }
}

impl EditName {
    /// Every edit. Those of messages, voice states and presences, which come most often, are first.
    pub const ALL: [EditName; 35] = [
        EditName::Message(MessageEditName::MessageCreate),
        EditName::Message(MessageEditName::MessageUpdate),
        EditName::Message(MessageEditName::MessageDelete),
        EditName::Message(MessageEditName::ReactionAdd),
        EditName::Message(MessageEditName::ReactionRemove),
        EditName::Message(MessageEditName::Typing),
        EditName::VoicePresence(VoicePresenceEditName::VoiceSet),
        EditName::VoicePresence(VoicePresenceEditName::PresenceSet),
        EditName::Guild(GuildEditName::GuildOpen),
        EditName::Guild(GuildEditName::GuildRename),
        EditName::Guild(GuildEditName::GuildOwner),
        EditName::Guild(GuildEditName::GuildOutage),
        EditName::Guild(GuildEditName::GuildBack),
        EditName::Guild(GuildEditName::GuildPrivate),
        EditName::RoleMember(RoleMemberEditName::RoleCreate),
        EditName::RoleMember(RoleMemberEditName::RoleUpdate),
        EditName::RoleMember(RoleMemberEditName::RoleDelete),
        EditName::RoleMember(RoleMemberEditName::MemberAdd),
        EditName::RoleMember(RoleMemberEditName::MemberRemove),
        EditName::RoleMember(RoleMemberEditName::MemberNick),
        EditName::RoleMember(RoleMemberEditName::MemberTimeout),
        EditName::RoleMember(RoleMemberEditName::MemberRoleAdd),
        EditName::RoleMember(RoleMemberEditName::MemberRoleRemove),
        EditName::Channel(ChannelEditName::ChannelCreate),
        EditName::Channel(ChannelEditName::ChannelUpdate),
        EditName::Channel(ChannelEditName::ChannelDelete),
        EditName::Channel(ChannelEditName::OverwriteSet),
        EditName::Channel(ChannelEditName::OverwriteDelete),
        EditName::Thread(ThreadEditName::ThreadCreate),
        EditName::Thread(ThreadEditName::ThreadRename),
        EditName::Thread(ThreadEditName::ThreadArchive),
        EditName::Thread(ThreadEditName::ThreadUnarchive),
        EditName::Thread(ThreadEditName::ThreadDelete),
        EditName::Thread(ThreadEditName::ThreadJoin),
        EditName::Thread(ThreadEditName::ThreadLeave),
    ];

    /// The edit of this name; `None` exactly if no edit has it.
    #[tactic(auto, unfolding(crate::specs::Names::edit_named))]
    pub fn of(name: &str) -> Option<EditName>
        ensures { result ≡ edit_named name.now }
    {
        EditName::ALL
            .iter()
            .copied()
            .find(|edit| name == edit.text())
    }

    /// The name of the edit.
    pub fn text(self) -> &'static str
        ensures { result.now ≡ name_text self }
    {
        match self {
            EditName::Guild(edit) => edit.text(),
            EditName::RoleMember(edit) => edit.text(),
            EditName::Channel(edit) => edit.text(),
            EditName::Thread(edit) => edit.text(),
            EditName::VoicePresence(edit) => edit.text(),
            EditName::Message(edit) => edit.text(),
        }
    }
}
