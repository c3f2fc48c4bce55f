//! `member_role_remove`: takes a role from a member (Gateway Events, Guild Member Update).

ghost use Rattle.std.specs.Prelude.{◌≡◌, None, true};
ghost use Rattle.guild_model.specs.Tests.{outcome};
ghost use Rattle.role_member_edit.specs.HeldRoles.{member_role_remove_verdict, member_role_removed};

use crate::held_role::HeldRole;
use crate::member_role_add::holds_role;
use crate::role_delete::not_everyone;
use guild_model::changes::WithoutRole;
use guild_model::{Guild, Verdict, rules};

/// Refused in this order: `EveryoneRole`, `UnknownMember`, `UnknownRole` where the role is not held.
pub fn check(guild: &Guild, edit: &HeldRole) -> Result<(), Verdict>
    ensures { result ≡ outcome (member_role_remove_verdict guild.now edit.now) }
{
    not_everyone(guild, edit.role)?;
    rules::knows_member(guild, edit.user)?;
    if !holds_role(guild, edit.user, edit.role) {
        return Err(Verdict::UnknownRole);
    }
    Ok(())
}

/// Takes the role from the member.
pub fn apply(guild: &mut Guild, edit: HeldRole)
    requires open { guild.old.opened ≡ true }
    requires accepted { member_role_remove_verdict guild.old edit ≡ None }
    ensures { guild.new ≡ member_role_removed guild.old edit }
{
    guild.members.change(edit.user.0, WithoutRole(edit.role));
}
