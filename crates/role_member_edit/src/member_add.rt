//! `member_add`: adds a member, without roles (Gateway Events, Guild Member Add).

ghost use Rattle.std.specs.Prelude.{◌≡◌, None, true, IfOk, OnOk, OnErr};
ghost use Rattle.guild_model.specs.Tests.{outcome};
ghost use Rattle.role_member_edit.specs.Members.{member_add_verdict, member_added};

use collections::{ById, Text};
use guild_model::{Guild, Member, Moment, User, Verdict, limits, rules};
use snowflake_id::Snowflake;
use std::alloc::{AllocError, Global};

/// The user that becomes a member, and when it joins.
#[derive(Drop)]
pub struct MemberAdd {
    pub user: Snowflake,
    pub name: Text,
    pub bot: bool,
    pub at: Moment,
}

impl MemberAdd {
    /// An equal value.
    pub fn copy(&self, alloc: Global) -> Result<MemberAdd, AllocError>
        ensures { IfOk result (λ copy. copy ≡ self.now) }
    {
        Ok(MemberAdd {
            user: self.user,
            name: self.name.copy(alloc)?,
            bot: self.bot,
            at: self.at,
        })
    }
}

/// Refused in this order: `IdTaken` where the user is a member, `TooMany`, `TooLong` for the name.
pub fn check(guild: &Guild, edit: &MemberAdd) -> Result<(), Verdict>
    ensures { result ≡ outcome (member_add_verdict guild.now edit.now) }
{
    if guild.members.contains(edit.user.0) {
        return Err(Verdict::IdTaken);
    }
    rules::has_room(guild.members.len(), limits::MEMBERS)?;
    rules::within(&edit.name, limits::NAME_BYTES)
}

/// Adds the member. If it runs out of memory, the record stays as it was.
pub fn apply(alloc: Global, guild: &mut Guild, edit: MemberAdd) -> Result<(), AllocError>
    requires open { guild.old.opened ≡ true }
    requires accepted { member_add_verdict guild.old edit ≡ None }
    ensures ok { OnOk result (guild.new ≡ member_added guild.old edit) }
    ensures err { OnErr result (guild.new ≡ guild.old) }
{
    guild.members.insert(Member {
        user: User {
            id: edit.user,
            name: edit.name,
            bot: edit.bot,
        },
        nick: None,
        roles: ById::new(alloc),
        joined: edit.at,
        timeout: None,
    })?;
    Ok(())
}
