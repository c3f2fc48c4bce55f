//! The edits of roles and members: when each is refused, and what it makes of a guild's record.
#![tactic(auto)]

ghost use Rattle.std.specs.Prelude.{◌≡◌, None, true, IfOk, OnOk, OnErr};
ghost use Rattle.guild_model.specs.Tests.{outcome};
ghost use Rattle.role_member_edit.specs.RoleMember.{role_member_verdict, role_member_applied};

pub mod held_role;
pub mod member_add;
pub mod member_nick;
pub mod member_remove;
pub mod member_role_add;
pub mod member_role_remove;
pub mod member_timeout;
pub mod role_body;
pub mod role_create;
pub mod role_delete;
pub mod role_update;

use guild_model::{Guild, Verdict};
pub use held_role::HeldRole;
pub use member_add::MemberAdd;
pub use member_nick::MemberNick;
pub use member_timeout::MemberTimeout;
pub use role_body::RoleBody;
use snowflake_id::Snowflake;
use std::alloc::{AllocError, Global};

/// An edit of a guild's roles or members.
#[derive(Drop)]
pub enum RoleMemberEdit {
    /// Creates a role.
    RoleCreate(RoleBody),
    /// Replaces a role's name, permissions and position, also those of `@everyone`.
    RoleUpdate(RoleBody),
    /// Deletes a role and its overwrites, and takes it from the members that hold it.
    RoleDelete { role: Snowflake },
    /// Adds a member, without roles.
    MemberAdd(MemberAdd),
    /// Removes a member.
    MemberRemove { user: Snowflake },
    /// Sets or clears a member's nickname.
    MemberNick(MemberNick),
    /// Sets or clears the end of a member's timeout.
    MemberTimeout(MemberTimeout),
    /// Gives a member a role.
    MemberRoleAdd(HeldRole),
    /// Takes a role from a member.
    MemberRoleRemove(HeldRole),
}

/// Why an edit of an open guild is refused: the first of its tests that fails. Does not allocate.
pub fn check(guild: &Guild, edit: &RoleMemberEdit) -> Result<(), Verdict>
    ensures { result ≡ outcome (role_member_verdict guild.now edit.now) }
{
    match edit {
        RoleMemberEdit::RoleCreate(edit) => role_create::check(guild, edit),
        RoleMemberEdit::RoleUpdate(edit) => role_update::check(guild, edit),
        RoleMemberEdit::RoleDelete { role } => role_delete::check(guild, *role),
        RoleMemberEdit::MemberAdd(edit) => member_add::check(guild, edit),
        RoleMemberEdit::MemberRemove { user } => member_remove::check(guild, *user),
        RoleMemberEdit::MemberNick(edit) => member_nick::check(guild, edit),
        RoleMemberEdit::MemberTimeout(edit) => member_timeout::check(guild, edit),
        RoleMemberEdit::MemberRoleAdd(edit) => member_role_add::check(guild, edit),
        RoleMemberEdit::MemberRoleRemove(edit) => member_role_remove::check(guild, edit),
    }
}

/// Makes an edit that [`check`] does not refuse. If it runs out of memory, the record stays as it
/// was.
pub fn apply(alloc: Global, guild: &mut Guild, edit: RoleMemberEdit) -> Result<(), AllocError>
    requires open { guild.old.opened ≡ true }
    requires accepted { role_member_verdict guild.old edit ≡ None }
    ensures ok { OnOk result (guild.new ≡ role_member_applied guild.old edit) }
    ensures err { OnErr result (guild.new ≡ guild.old) }
{
    match edit {
        RoleMemberEdit::RoleCreate(edit) => role_create::apply(guild, edit)?,
        RoleMemberEdit::RoleUpdate(edit) => role_update::apply(guild, edit),
        RoleMemberEdit::RoleDelete { role } => role_delete::apply(guild, role),
        RoleMemberEdit::MemberAdd(edit) => member_add::apply(alloc, guild, edit)?,
        RoleMemberEdit::MemberRemove { user } => member_remove::apply(guild, user),
        RoleMemberEdit::MemberNick(edit) => member_nick::apply(guild, edit),
        RoleMemberEdit::MemberTimeout(edit) => member_timeout::apply(guild, edit),
        RoleMemberEdit::MemberRoleAdd(edit) => member_role_add::apply(alloc, guild, edit)?,
        RoleMemberEdit::MemberRoleRemove(edit) => member_role_remove::apply(guild, edit),
    }
    Ok(())
}

impl RoleMemberEdit {
    /// An edit that is equal to this.
    pub fn copy(&self, alloc: Global) -> Result<RoleMemberEdit, AllocError>
        ensures { IfOk result (λ copy. copy ≡ self.now) }
    {
        Ok(match self {
            RoleMemberEdit::RoleCreate(edit) => RoleMemberEdit::RoleCreate(edit.copy(alloc)?),
            RoleMemberEdit::RoleUpdate(edit) => RoleMemberEdit::RoleUpdate(edit.copy(alloc)?),
            RoleMemberEdit::RoleDelete { role } => RoleMemberEdit::RoleDelete { role: *role },
            RoleMemberEdit::MemberAdd(edit) => RoleMemberEdit::MemberAdd(edit.copy(alloc)?),
            RoleMemberEdit::MemberRemove { user } => RoleMemberEdit::MemberRemove { user: *user },
            RoleMemberEdit::MemberNick(edit) => RoleMemberEdit::MemberNick(edit.copy(alloc)?),
            RoleMemberEdit::MemberTimeout(edit) => RoleMemberEdit::MemberTimeout(*edit),
            RoleMemberEdit::MemberRoleAdd(edit) => RoleMemberEdit::MemberRoleAdd(*edit),
            RoleMemberEdit::MemberRoleRemove(edit) => RoleMemberEdit::MemberRoleRemove(*edit),
        })
    }
}
