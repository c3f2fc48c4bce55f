//! `member_role_add`: gives a member a role (Gateway Events, Guild Member Update).

ghost use Rattle.std.specs.Prelude.{◌≡◌, None, true, false, OnOk, OnErr, refl, IfOk};
ghost use Rattle.guild_model.specs.Tests.{outcome};
ghost use Rattle.role_member_edit.specs.HeldRoles.{member_role_add_verdict, member_role_added, holds, held_with, with_roles};

use crate::held_role::HeldRole;
use crate::role_delete::not_everyone;
use collections::{ById, Change};
use guild_model::{Guild, Member, Verdict, rules};
use snowflake_id::Snowflake;
use std::alloc::{AllocError, Global};

/// Whether a member holds a role; false for a user who is not a member.
pub fn holds_role(guild: &Guild, user: Snowflake, role: Snowflake) -> bool
    ensures { result ≡ holds guild.now user role }
{
    match guild.members.get(user.0) {
        Some(member) => member.roles.contains(role.0),
        None => false,
    }
}

/// Refused in this order: `EveryoneRole`, `UnknownMember`, `UnknownRole`, `IdTaken` where the role
/// is held.
pub fn check(guild: &Guild, edit: &HeldRole) -> Result<(), Verdict>
    ensures { result ≡ outcome (member_role_add_verdict guild.now edit.now) }
{
    not_everyone(guild, edit.role)?;
    rules::knows_member(guild, edit.user)?;
    rules::knows_role(guild, edit.role)?;
    if holds_role(guild, edit.user, edit.role) {
        return Err(Verdict::IdTaken);
    }
    Ok(())
}

#[derive(Drop)]
struct SetRoles {
    roles: ById<Snowflake>,
}

impl Change<Member> for SetRoles {
    ghost changed = { λ change m. with_roles change.roles m };

    fn change(self, member: &mut Member) {
        member.roles = self.roles;
    }

    ghost keeps_key = { λ change m. refl };
}

// The roles that a member holds, and one that it does not hold yet.
fn roles_with(
    alloc: Global,
    guild: &Guild,
    user: Snowflake,
    role: Snowflake,
) -> Result<ById<Snowflake>, AllocError>
    requires { holds guild.now user role ≡ false }
    ensures { IfOk result (λ roles. roles ≡ held_with guild.now user role) }
{
    let mut roles = match guild.members.get(user.0) {
        Some(member) => member.roles.copy(alloc)?,
        None => ById::new(alloc),
    };
    roles.insert(role)?;
    Ok(roles)
}

/// Gives the role to the member. If it runs out of memory, the record stays as it was.
pub fn apply(alloc: Global, guild: &mut Guild, edit: HeldRole) -> Result<(), AllocError>
    requires open { guild.old.opened ≡ true }
    requires accepted { member_role_add_verdict guild.old edit ≡ None }
    ensures ok { OnOk result (guild.new ≡ member_role_added guild.old edit) }
    ensures err { OnErr result (guild.new ≡ guild.old) }
{
    let roles = roles_with(alloc, guild, edit.user, edit.role)?;
    guild.members.change(edit.user.0, SetRoles { roles });
    Ok(())
}
