//! GUILD_MEMBER_ADD, GUILD_MEMBER_UPDATE and GUILD_MEMBER_REMOVE, and what ends with a member (Gateway
//! Events, Guild Member Add, Guild Member Update and Guild Member Remove).

ghost use Rattle.std.specs.Prelude.{◌≡◌, ◌++◌, OnOk, IfOk};
ghost use Rattle.event_views.specs.Threads.{user_leaves};
ghost use Rattle.role_member_events.specs.Dispatches.{added_member, member_adds, member_removes, member_updated, presence_ended, voice_ended};
ghost use Rattle.role_member_events.specs.ByNote.{ended_by_note};

use crate::ends::RoleMemberNote;
use collections::{Duplicate, Seq};
use dispatch_types::{Dispatch, GuildMember, GuildMemberRemove, MemberObject, PresenceObject};
use event_views::thread_told::add_left;
use event_views::{Recipient, add_voice_end};
use guild_model::{User, Voice};
use intent_set::Kind;
use role_member_edit::MemberAdd;
use snowflake_id::Snowflake;
use std::alloc::{AllocError, Global};

fn added_member(
    alloc: Global,
    to: &Recipient<'_>,
    edit: &MemberAdd,
) -> Result<GuildMember, AllocError>
    ensures { IfOk result (λ member. member ≡ added_member to.now.after.id edit.now) }
{
    Ok(GuildMember {
        guild: to.guild(),
        member: MemberObject {
            user: User {
                id: edit.user,
                name: edit.name.copy(alloc)?,
                bot: edit.bot,
            },
            nick: None,
            roles: Seq::new(alloc),
            joined: edit.at,
            timeout: None,
        },
    })
}

/// Adds GUILD_MEMBER_ADD.
pub fn add_added(
    alloc: Global,
    to: &Recipient<'_>,
    edit: &MemberAdd,
    list: &mut Vec<Dispatch>,
) -> Result<(), AllocError>
    ensures { OnOk result (list.new.items
        ≡ list.old.items ++ member_adds to.now.after to.now.viewer edit.now) }
{
    if !to.asks(Kind::GuildMemberAdd, edit.user == to.user()) {
        return Ok(());
    }
    let member = added_member(alloc, to, edit)?;
    list.push(Dispatch::GuildMemberAdd(member))?;
    Ok(())
}

/// Adds GUILD_MEMBER_UPDATE of a member as it is after the edit.
pub fn add_updated(
    alloc: Global,
    to: &Recipient<'_>,
    user: Snowflake,
    list: &mut Vec<Dispatch>,
) -> Result<(), AllocError>
    ensures { OnOk result (list.new.items
        ≡ list.old.items ++ member_updated to.now.after to.now.viewer user) }
{
    let Some(found) = to.after.member(user) else {
        return Ok(());
    };
    let own = found.user.id == to.user();
    if !to.asks(Kind::GuildMemberUpdate, own) {
        return Ok(());
    }
    let member = MemberObject::of(alloc, found)?;
    let guild = to.guild();
    list.push(Dispatch::GuildMemberUpdate(GuildMember { guild, member }))?;
    Ok(())
}

// Adds PRESENCE_UPDATE of a removed member: it is offline after that, where it had a presence.
fn add_presence_ended(
    to: &Recipient<'_>,
    user: Snowflake,
    presence: bool,
    list: &mut Vec<Dispatch>,
) -> Result<(), AllocError>
    ensures { OnOk result (list.new.items
        ≡ list.old.items ++ presence_ended to.now.after to.now.viewer user presence) }
{
    if !presence || !to.asks(Kind::PresenceUpdate, false) {
        return Ok(());
    }
    list.push(Dispatch::PresenceUpdate(PresenceObject {
        guild: to.guild(),
        user,
        status: None,
    }))?;
    Ok(())
}

// Adds VOICE_STATE_UPDATE of a removed member that was in voice.
fn add_voice_ended(
    to: &Recipient<'_>,
    voice: &Option<Voice>,
    list: &mut Vec<Dispatch>,
) -> Result<(), AllocError>
    ensures { OnOk result (list.new.items
        ≡ list.old.items ++ voice_ended to.now.after to.now.viewer voice.now) }
{
    match voice {
        Some(voice) => add_voice_end(to, voice, list),
        None => Ok(()),
    }
}

// Adds THREAD_MEMBERS_UPDATE of each of the threads that a removed member was in.
fn add_each_left(
    alloc: Global,
    to: &Recipient<'_>,
    user: Snowflake,
    threads: &[Snowflake],
    list: &mut Vec<Dispatch>,
) -> Result<(), AllocError>
    ensures { OnOk result (list.new.items ≡ list.old.items
        ++ user_leaves to.now.after.id to.now.viewer user to.now.after.threads threads.now) }
{
    for thread in threads {
        if let Some(found) = to.after.thread(*thread) {
            add_left(alloc, to, user, found, list)?;
        }
    }
    Ok(())
}

// Adds GUILD_MEMBER_REMOVE.
fn add_removed(
    alloc: Global,
    to: &Recipient<'_>,
    user: &User,
    list: &mut Vec<Dispatch>,
) -> Result<(), AllocError>
    ensures { OnOk result (list.new.items
        ≡ list.old.items ++ member_removes to.now.after to.now.viewer user.now) }
{
    if !to.asks(Kind::GuildMemberRemove, user.id == to.user()) {
        return Ok(());
    }
    list.push(Dispatch::GuildMemberRemove(GuildMemberRemove {
        guild: to.guild(),
        user: user.duplicate(alloc)?,
    }))?;
    Ok(())
}

/// Adds the end of a member: of its presence, its voice state and its part in threads, and then
/// GUILD_MEMBER_REMOVE.
pub fn add_ended(
    alloc: Global,
    note: &RoleMemberNote,
    to: &Recipient<'_>,
    list: &mut Vec<Dispatch>,
) -> Result<(), AllocError>
    ensures { OnOk result (list.new.items
        ≡ list.old.items ++ ended_by_note to.now.after to.now.viewer note.now) }
{
    if let RoleMemberNote::Leaving(end) = note {
        let user = end.user.id;
        add_presence_ended(to, user, end.presence, list)?;
        add_voice_ended(to, &end.voice, list)?;
        add_each_left(alloc, to, user, end.threads.as_slice(), list)?;
        add_removed(alloc, to, &end.user, list)?;
    }
    Ok(())
}
