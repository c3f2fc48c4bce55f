//! The first entries of a guild's log: the guild opens, and its bots, roles, channels and
//! members are added.

ghost use Rattle.std.specs.Prelude.{◌≡◌, IfOk};
ghost use Rattle.load_maker.specs.Edits.{open_guild, add_bot, create_role, create_channel, add_user, setup};

use crate::ids::{bot_name, id_in, user_id};
use channel_edit::ChannelCreate;
use collections::Text;
use edit_apply::{ChannelEdit, Edit, GuildEdit, GuildOpen, RoleMemberEdit};
use guild_model::{ChannelKind, Moment};
use perm_bits::Perms;
use role_member_edit::{MemberAdd, RoleBody};
use snowflake_id::Snowflake;
use std::alloc::{AllocError, Global};

/// The moment of every entry that has one.
pub(crate) fn start() -> Moment
    ensures { result ≡ 0 }
{
    Moment::of_millis(0).unwrap()
}

fn open_guild(alloc: Global) -> Result<Edit, AllocError>
    ensures { IfOk result (λ edit. edit ≡ open_guild) }
{
    let name = Text::new(alloc, "g")?;
    let owner_name = Text::new(alloc, "o")?;
    Ok(Edit::Guild(GuildEdit::GuildOpen(GuildOpen {
        name,
        owner: user_id(100),
        owner_name,
        perms: Perms::VIEW_CHANNEL,
        at: start(),
    })))
}

fn add_bot(alloc: Global, bot: u32) -> Result<Edit, AllocError>
    ensures { IfOk result (λ edit. edit ≡ add_bot bot) }
{
    let name = bot_name(alloc, bot)?;
    Ok(Edit::RoleMember(RoleMemberEdit::MemberAdd(MemberAdd {
        user: user_id(bot),
        name,
        bot: true,
        at: start(),
    })))
}

fn create_role(alloc: Global, role: Snowflake) -> Result<Edit, AllocError>
    ensures { IfOk result (λ edit. edit ≡ create_role role) }
{
    let name = Text::new(alloc, "r")?;
    Ok(Edit::RoleMember(RoleMemberEdit::RoleCreate(RoleBody {
        role,
        name,
        perms: Perms::NONE,
        position: 0,
    })))
}

fn create_channel(alloc: Global, channel: Snowflake) -> Result<Edit, AllocError>
    ensures { IfOk result (λ edit. edit ≡ create_channel channel) }
{
    let name = Text::new(alloc, "c")?;
    Ok(Edit::Channel(ChannelEdit::ChannelCreate(ChannelCreate {
        channel,
        kind: ChannelKind::Text,
        name,
        parent: None,
        position: 0,
        sync: false,
    })))
}

fn add_user(alloc: Global, user: u32) -> Result<Edit, AllocError>
    ensures { IfOk result (λ edit. edit ≡ add_user user) }
{
    let name = Text::new(alloc, "u")?;
    Ok(Edit::RoleMember(RoleMemberEdit::MemberAdd(MemberAdd {
        user: user_id(user),
        name,
        bot: false,
        at: start(),
    })))
}

/// The entry with this place, below 16.
#[tactic(auto, unfolding(crate::specs::Edits::setup))]
pub(crate) fn setup(alloc: Global, guild: u32, index: u16) -> Result<Edit, AllocError>
    ensures { IfOk result (λ edit. edit ≡ setup guild index) }
{
    let place = u32::from(index);
    match index {
        0 => open_guild(alloc),
        1..=3 => add_bot(alloc, place),
        4..=7 => create_role(alloc, id_in(guild, 1 + (place - 4))),
        8..=11 => create_channel(alloc, id_in(guild, 10 + (place - 8))),
        _ => add_user(alloc, 101 + (place - 12)),
    }
}
