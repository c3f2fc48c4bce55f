//! Which of a user's masks an edit may change.

ghost use Rattle.std.specs.Prelude.{◌≡◌};
ghost use Rattle.mask_cache.specs.Changes.{mask_change, guild_change, role_member_change, channel_change, roles_change};
ghost use Rattle.mask_cache.specs.Law.{OthersStay};

use edit_apply::{ChannelEdit, Edit, GuildEdit, RoleMemberEdit};
use snowflake_id::Snowflake;

/// Which of a user's masks an edit may change.
#[derive(Clone, Copy)]
pub enum MaskChange {
    /// None of them.
    Nothing,
    /// The mask in a channel that is deleted.
    Gone { channel: Snowflake },
    /// The mask in a channel that is created, or whose overwrites change.
    InChannel { channel: Snowflake },
    /// The base mask, and the masks in all channels.
    All,
}

// An edit of the guild itself.
fn of_guild(edit: &GuildEdit) -> MaskChange
    ensures { result ≡ guild_change edit.now }
{
    match edit {
        GuildEdit::GuildOpen(_) => MaskChange::All,
        GuildEdit::GuildRename { .. } => MaskChange::Nothing,
        GuildEdit::GuildOwner { .. } => MaskChange::All,
        GuildEdit::GuildOutage => MaskChange::Nothing,
        GuildEdit::GuildBack => MaskChange::Nothing,
        GuildEdit::GuildPrivate { .. } => MaskChange::Nothing,
    }
}

// A change of the roles that a user holds.
fn of_roles(holder: Snowflake, user: Snowflake) -> MaskChange
    ensures { result ≡ roles_change holder user }
{
    if holder == user {
        MaskChange::All
    } else {
        MaskChange::Nothing
    }
}

// An edit of roles and members.
fn of_role_member(edit: &RoleMemberEdit, user: Snowflake) -> MaskChange
    ensures { result ≡ role_member_change user edit.now }
{
    match edit {
        RoleMemberEdit::RoleCreate(_) => MaskChange::Nothing,
        RoleMemberEdit::RoleUpdate(_) => MaskChange::All,
        RoleMemberEdit::RoleDelete { .. } => MaskChange::All,
        RoleMemberEdit::MemberAdd(_) => MaskChange::Nothing,
        RoleMemberEdit::MemberRemove { .. } => MaskChange::Nothing,
        RoleMemberEdit::MemberNick(_) => MaskChange::Nothing,
        RoleMemberEdit::MemberTimeout(_) => MaskChange::Nothing,
        RoleMemberEdit::MemberRoleAdd(edit) => of_roles(edit.user, user),
        RoleMemberEdit::MemberRoleRemove(edit) => of_roles(edit.user, user),
    }
}

// An edit of channels and their overwrites.
fn of_channel(edit: &ChannelEdit) -> MaskChange
    ensures { result ≡ channel_change edit.now }
{
    match edit {
        ChannelEdit::ChannelCreate(edit) => MaskChange::InChannel {
            channel: edit.channel,
        },
        ChannelEdit::ChannelUpdate(_) => MaskChange::Nothing,
        ChannelEdit::ChannelDelete { channel } => MaskChange::Gone { channel: *channel },
        ChannelEdit::OverwriteSet(edit) => MaskChange::InChannel {
            channel: edit.channel,
        },
        ChannelEdit::OverwriteDelete(edit) => MaskChange::InChannel {
            channel: edit.channel,
        },
    }
}

impl MaskChange {
    /// Which masks of this user an edit may change. All others are after the edit what they were
    /// before it.
    pub fn of(edit: &Edit, user: Snowflake) -> MaskChange
        ensures { result ≡ mask_change user edit.now }
    {
        match edit {
            Edit::Guild(edit) => of_guild(edit),
            Edit::RoleMember(edit) => of_role_member(edit, user),
            Edit::Channel(edit) => of_channel(edit),
            Edit::Thread(_) => MaskChange::Nothing,
            Edit::VoicePresence(_) => MaskChange::Nothing,
            Edit::Message(_) => MaskChange::Nothing,
        }
    }
}

/// After an accepted edit of a guild that is open, each mask of a member is what it was before, but
/// those of [`MaskChange::of`].
pub fn others_stay()
    ensures { OthersStay }
{}
