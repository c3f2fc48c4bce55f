//! Members, and their dispatches: GUILD_MEMBER_ADD, GUILD_MEMBER_UPDATE, GUILD_MEMBER_REMOVE and
//! GUILD_MEMBERS_CHUNK.

ghost use Rattle.std.specs.Prelude.{◌≡◌, IfOk};
ghost use Rattle.dispatch_types.specs.Objects.{member_object};

use crate::presences::PresenceObject;
use collections::{Duplicate, Seq, Text};
use guild_model::member::copy_text;
use guild_model::{Member, Moment, User};
use snowflake_id::Snowflake;
use std::alloc::{AllocError, Global};

/// The wire form of a member (Guild Resource, Guild Member Object).
pub struct MemberObject {
    pub user: User,
    pub nick: Option<Text>,
    pub roles: Seq<Snowflake>,
    pub joined: Moment,
    /// The end of a timeout (`communication_disabled_until`).
    pub timeout: Option<Moment>,
}

impl Drop for MemberObject {
    fn drop(self) {
        let MemberObject {
            user,
            nick,
            roles,
            joined: _,
            timeout: _,
        } = self;
        drop(user);
        drop(nick);
        drop(roles);
    }
}

// The held roles.
fn roles(alloc: Global, member: &Member) -> Result<Seq<Snowflake>, AllocError>
    ensures { IfOk result (λ roles. roles ≡ member.now.roles) }
{
    let roles = Vec::from_slice(alloc, member.roles.as_slice())?;
    Ok(Seq::from_vec(roles))
}

impl MemberObject {
    /// The wire form of a member.
    pub fn of(alloc: Global, member: &Member) -> Result<MemberObject, AllocError>
        ensures { IfOk result (λ object. object ≡ member_object member.now) }
    {
        Ok(MemberObject {
            user: member.user.duplicate(alloc)?,
            nick: copy_text(alloc, &member.nick)?,
            roles: roles(alloc, member)?,
            joined: member.joined,
            timeout: member.timeout,
        })
    }

    /// The user, the nick and the roles.
    pub fn into_parts(self) -> (User, Option<Text>, Seq<Snowflake>)
        ensures { (result.0 ≡ self.user) × (result.1 ≡ self.nick) × (result.2 ≡ self.roles) }
    {
        let MemberObject {
            user,
            nick,
            roles,
            joined: _,
            timeout: _,
        } = self;
        (user, nick, roles)
    }
}

/// A member of a guild that is added or updated (Gateway Events, Guild Member Add and Guild Member
/// Update).
pub struct GuildMember {
    pub guild: Snowflake,
    pub member: MemberObject,
}

impl Drop for GuildMember {
    fn drop(self) {
        let GuildMember { guild: _, member } = self;
        drop(member);
    }
}

impl GuildMember {
    /// The member.
    pub fn into_member(self) -> MemberObject
        ensures { result ≡ self.member }
    {
        let GuildMember { guild: _, member } = self;
        member
    }
}

/// A user that is no longer a member of a guild (Gateway Events, Guild Member Remove).
pub struct GuildMemberRemove {
    pub guild: Snowflake,
    pub user: User,
}

impl Drop for GuildMemberRemove {
    fn drop(self) {
        let GuildMemberRemove { guild: _, user } = self;
        drop(user);
    }
}

/// Members that a client asked for (Gateway Events, Guild Members Chunk).
pub struct MembersChunk {
    pub guild: Snowflake,
    pub members: Seq<MemberObject>,
    pub index: u64,
    pub count: u64,
    pub nonce: Option<Text>,
    /// The ids that are no members'; left out where there are none.
    pub not_found: Seq<Snowflake>,
    pub presences: Option<Seq<PresenceObject>>,
}

impl Drop for MembersChunk {
    fn drop(self) {
        let MembersChunk {
            guild: _,
            members,
            index: _,
            count: _,
            nonce,
            not_found,
            presences,
        } = self;
        drop(members);
        drop(nonce);
        drop(not_found);
        drop(presences);
    }
}

impl MembersChunk {
    /// The members.
    pub fn into_members(self) -> Seq<MemberObject>
        ensures { result ≡ self.members }
    {
        let MembersChunk {
            guild: _,
            members,
            index: _,
            count: _,
            nonce,
            not_found,
            presences,
        } = self;
        drop(nonce);
        drop(not_found);
        drop(presences);
        members
    }
}
