//! The entries between a guild's first ones and its last: eight kinds in turn.

ghost use Rattle.std.specs.Prelude.{◌≡◌, ◌+◌, IfOk};
ghost use Rattle.load_maker.specs.Edits.{rename, drawn_channel, set_overwrite, drawn_kind, create_thread, drawn_perms, update_role, create_message, archive_thread, unarchive_or_rename, set_nick, change_role, turn};

use crate::ids::{id_in, user_id};
use crate::setup::start;
use channel_edit::OverwriteSet;
use collections::{Seq, Text};
use edit_apply::{
    ChannelEdit, Edit, GuildEdit, MessageBody, MessageEdit, RoleMemberEdit, ThreadEdit,
};
use guild_model::{OverwriteKind, PartCount, ThreadKind};
use message_edit::MessageCreate;
use perm_bits::Perms;
use role_member_edit::{HeldRole, MemberNick, RoleBody};
use snowflake_id::Snowflake;
use std::alloc::{AllocError, Global};
use thread_edit::ThreadCreate;

/// Renames the guild.
pub(crate) fn rename(alloc: Global, name: &str) -> Result<Edit, AllocError>
    ensures { IfOk result (λ edit. edit ≡ rename name.now) }
{
    let name = Text::new(alloc, name)?;
    Ok(Edit::Guild(GuildEdit::GuildRename { name }))
}

fn drawn_channel(guild: u32, draw: u32) -> Snowflake
    ensures { result ≡ drawn_channel guild draw }
{
    id_in(guild, 10 + draw % 4)
}

fn set_overwrite(guild: u32, draw: u32) -> Edit
    ensures { result ≡ set_overwrite guild draw }
{
    let (allow, deny) = match draw / 32 % 3 {
        0 => (Perms::VIEW_CHANNEL, Perms::NONE),
        1 => (Perms::NONE, Perms::VIEW_CHANNEL),
        _ => (Perms::NONE, Perms::NONE),
    };
    Edit::Channel(ChannelEdit::OverwriteSet(OverwriteSet {
        channel: drawn_channel(guild, draw),
        id: id_in(guild, draw / 4 % 5),
        kind: OverwriteKind::Role,
        allow,
        deny,
    }))
}

fn drawn_kind(draw: u32) -> ThreadKind
    ensures { result ≡ drawn_kind draw }
{
    if draw / 4 % 2 == 0 {
        ThreadKind::Public
    } else {
        ThreadKind::Private
    }
}

// The thread that is created in a round.
fn thread_id(guild: u32, round: u16) -> Snowflake
    ensures { result ≡ guild + 1000 + round }
{
    id_in(guild, 1000 + u32::from(round))
}

fn create_thread(alloc: Global, guild: u32, round: u16, draw: u32) -> Result<Edit, AllocError>
    ensures { IfOk result (λ edit. edit ≡ create_thread guild round draw) }
{
    let name = Text::new(alloc, "t")?;
    Ok(Edit::Thread(ThreadEdit::ThreadCreate(ThreadCreate {
        thread: thread_id(guild, round),
        parent: drawn_channel(guild, draw),
        kind: drawn_kind(draw),
        name,
        owner: user_id(101),
        at: start(),
    })))
}

fn drawn_perms(choice: u32) -> Perms
    ensures { result ≡ drawn_perms choice }
{
    match choice {
        0 => Perms::NONE,
        1 => Perms::VIEW_CHANNEL,
        2 => Perms::MANAGE_THREADS,
        _ => Perms::ADMINISTRATOR,
    }
}

fn update_role(alloc: Global, guild: u32, draw: u32) -> Result<Edit, AllocError>
    ensures { IfOk result (λ edit. edit ≡ update_role guild draw) }
{
    let name = Text::new(alloc, "r")?;
    Ok(Edit::RoleMember(RoleMemberEdit::RoleUpdate(RoleBody {
        role: id_in(guild, 1 + draw % 4),
        name,
        perms: drawn_perms(draw / 4 % 4),
        position: 0,
    })))
}

fn create_message(alloc: Global, guild: u32, round: u16, draw: u32) -> Result<Edit, AllocError>
    ensures { IfOk result (λ edit. edit ≡ create_message guild round draw) }
{
    let content = Text::new(alloc, "m")?;
    Ok(Edit::Message(MessageEdit::MessageCreate(MessageCreate {
        message: id_in(guild, 5000 + u32::from(round)),
        channel: drawn_channel(guild, draw),
        author: user_id(101),
        body: MessageBody {
            content,
            mentions: Seq::new(alloc),
            embeds: PartCount::NONE,
            attachments: PartCount::NONE,
            components: PartCount::NONE,
        },
    })))
}

fn archive_thread(guild: u32, round: u16) -> Edit
    ensures { result ≡ archive_thread guild round }
{
    Edit::Thread(ThreadEdit::ThreadArchive {
        thread: thread_id(guild, round),
    })
}

fn unarchive_or_rename(alloc: Global, guild: u32, round: u16) -> Result<Edit, AllocError>
    ensures { IfOk result (λ edit. edit ≡ unarchive_or_rename guild round) }
{
    if round % 2 == 0 {
        return rename(alloc, "n");
    }
    Ok(Edit::Thread(ThreadEdit::ThreadUnarchive {
        thread: thread_id(guild, round),
    }))
}

fn set_nick(alloc: Global, draw: u32) -> Result<Edit, AllocError>
    ensures { IfOk result (λ edit. edit ≡ set_nick draw) }
{
    let nick = Text::new(alloc, "k")?;
    Ok(Edit::RoleMember(RoleMemberEdit::MemberNick(MemberNick {
        user: user_id(101 + draw % 4),
        nick: Some(nick),
    })))
}

fn change_role(guild: u32, round: u16) -> Edit
    ensures { result ≡ change_role guild round }
{
    let pair = u32::from(round / 2);
    let held = HeldRole {
        user: user_id(1 + pair % 3),
        role: id_in(guild, 1 + pair % 4),
    };
    Edit::RoleMember(if round % 2 == 0 {
        RoleMemberEdit::MemberRoleAdd(held)
    } else {
        RoleMemberEdit::MemberRoleRemove(held)
    })
}

/// The entry of this kind, below 8, in this round.
#[tactic(auto, unfolding(crate::specs::Edits::turn))]
pub(crate) fn turn(
    alloc: Global,
    guild: u32,
    kind: u16,
    round: u16,
    draw: u32,
) -> Result<Edit, AllocError>
    ensures { IfOk result (λ edit. edit ≡ turn guild kind round draw) }
{
    match kind {
        0 => Ok(set_overwrite(guild, draw)),
        1 => create_thread(alloc, guild, round, draw),
        2 => update_role(alloc, guild, draw),
        3 => create_message(alloc, guild, round, draw),
        4 => Ok(archive_thread(guild, round)),
        5 => unarchive_or_rename(alloc, guild, round),
        6 => set_nick(alloc, draw),
        _ => Ok(change_role(guild, round)),
    }
}
