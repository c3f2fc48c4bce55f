//! What has to be known of the record before an edit of roles or members.

ghost use Rattle.std.specs.Prelude.{◌≡◌, true, IfOk};
ghost use Rattle.collections.specs.ById.{find_id};
ghost use Rattle.guild_model.specs.Record.{Record, member_id};
ghost use Rattle.event_views.specs.Threads.{threads_left};
ghost use Rattle.role_member_events.specs.Ends.{end_of, before_end, before_rights, before_own_rights, role_member_note, keeps_sights};

use collections::{ById, Duplicate, Seq};
use guild_model::{Guild, Member, User, Voice};
use overwrite_eval::StandingRef;
use role_member_edit::RoleMemberEdit;
use snowflake_id::Snowflake;
use std::alloc::{AllocError, Global};
use thread_sync::{ChannelSight, sights_of};

/// A member that is removed.
pub struct MemberEnd {
    pub user: User,
    /// Whether it had a presence.
    pub presence: bool,
    /// Its voice state, if it was in voice.
    pub voice: Option<Voice>,
    /// The active threads that it was in and that the viewer saw, ascending.
    pub threads: Seq<Snowflake>,
}

impl Drop for MemberEnd {
    fn drop(self) {
        let MemberEnd {
            user,
            presence: _,
            voice: _,
            threads,
        } = self;
        drop(user);
        drop(threads);
    }
}

/// What [`add_dispatches`](crate::add_dispatches) has to know of the record before an edit.
pub enum RoleMemberNote {
    /// Nothing: no member is removed, and what the viewer may do stays as it is.
    Nothing,
    /// The sights of the channels that the viewer saw, which the edit may change.
    Sights(ById<ChannelSight>),
    /// The member that is removed.
    Leaving(MemberEnd),
}

impl Drop for RoleMemberNote {
    fn drop(self) {
        match self {
            RoleMemberNote::Nothing => {}
            RoleMemberNote::Sights(held) => drop(held),
            RoleMemberNote::Leaving(held) => drop(held),
        }
    }
}

fn threads_left(
    alloc: Global,
    before: &Guild,
    me: &Member,
    user: Snowflake,
) -> Result<Vec<Snowflake>, AllocError>
    ensures { IfOk result (λ ids. ids.items ≡ threads_left before.now me.now user) }
{
    let standing = StandingRef::in_guild(before, me);
    let threads = before.threads.as_slice();
    threads
        .iter()
        .filter(|thread| !thread.archived && standing.sees_thread(thread))
        .filter(|thread| thread.members.contains(user.0))
        .map(|thread| thread.id)
        .collect(alloc)
}

fn end_of(
    alloc: Global,
    before: &Guild,
    me: &Member,
    member: &Member,
) -> Result<MemberEnd, AllocError>
    ensures { IfOk result (λ end. end ≡ end_of before.now me.now member.now) }
{
    let user = member.user.id;
    Ok(MemberEnd {
        user: member.user.duplicate(alloc)?,
        presence: before.presences.contains(user.0),
        voice: before.voices.get(user.0).copied(),
        threads: Seq::from_vec(threads_left(alloc, before, me, user)?),
    })
}

fn before_end(
    alloc: Global,
    before: &Guild,
    me: &Member,
    user: Snowflake,
) -> Result<RoleMemberNote, AllocError>
    ensures { IfOk result (λ note. note
        ≡ before_end before.now me.now (find_id member_id user before.now.members)) }
{
    match before.member(user) {
        Some(member) => Ok(RoleMemberNote::Leaving(end_of(alloc, before, me, member)?)),
        None => Ok(RoleMemberNote::Nothing),
    }
}

fn before_rights(alloc: Global, before: &Guild, me: &Member) -> Result<RoleMemberNote, AllocError>
    ensures { IfOk result (λ note. note ≡ before_rights before.now me.now) }
{
    let sights = sights_of(alloc, before, me)?;
    Ok(RoleMemberNote::Sights(sights))
}

// Before the roles of a user change: what the viewer sees changes only where the user is its own.
fn before_own_rights(
    alloc: Global,
    before: &Guild,
    me: &Member,
    user: Snowflake,
) -> Result<RoleMemberNote, AllocError>
    ensures { IfOk result (λ note. note ≡ before_own_rights before.now me.now user) }
{
    if user == me.user.id {
        before_rights(alloc, before, me)
    } else {
        Ok(RoleMemberNote::Nothing)
    }
}

/// Whether an edit may change what a member sees: [`note`] then keeps the sights of its channels.
pub fn asks_sights(edit: &RoleMemberEdit, me: &Member) -> bool
    ensures exactly { (before : Record) → result ≡ keeps_sights (role_member_note before me.now edit.now) }
    ensures kept { (before : Record) → result ≡ true → role_member_note before me.now edit.now ≡ before_rights before me.now }
{
    match edit {
        RoleMemberEdit::RoleUpdate(_) => true,
        RoleMemberEdit::RoleDelete { .. } => true,
        RoleMemberEdit::MemberRoleAdd(edit) => edit.user == me.user.id,
        RoleMemberEdit::MemberRoleRemove(edit) => edit.user == me.user.id,
        _ => false,
    }
}

/// Keeps what [`add_dispatches`](crate::add_dispatches) has to know of the record before an edit, where the viewer's own
/// member is `me`.
pub fn note(
    alloc: Global,
    before: &Guild,
    me: &Member,
    edit: &RoleMemberEdit,
) -> Result<RoleMemberNote, AllocError>
    ensures { IfOk result (λ note. note ≡ role_member_note before.now me.now edit.now) }
{
    match edit {
        RoleMemberEdit::RoleUpdate(_) => before_rights(alloc, before, me),
        RoleMemberEdit::RoleDelete { .. } => before_rights(alloc, before, me),
        RoleMemberEdit::MemberRoleAdd(edit) => before_own_rights(alloc, before, me, edit.user),
        RoleMemberEdit::MemberRoleRemove(edit) => before_own_rights(alloc, before, me, edit.user),
        RoleMemberEdit::MemberRemove { user } => before_end(alloc, before, me, *user),
        RoleMemberEdit::RoleCreate(_)
        | RoleMemberEdit::MemberAdd(_)
        | RoleMemberEdit::MemberNick(_)
        | RoleMemberEdit::MemberTimeout(_) => Ok(RoleMemberNote::Nothing),
    }
}
