//! `role_update`: replaces a role's name, permissions and position, also those of `@everyone`
//! (Gateway Events, Guild Role Update).

ghost use Rattle.std.specs.Prelude.{◌≡◌, None, true};
ghost use Rattle.guild_model.specs.Tests.{outcome};
ghost use Rattle.role_member_edit.specs.Roles.{role_update_verdict, role_updated};

use crate::role_body::RoleBody;
use guild_model::{Guild, Verdict, limits, rules};

/// Refused in this order: `UnknownRole`, `TooLong` for the name.
pub fn check(guild: &Guild, edit: &RoleBody) -> Result<(), Verdict>
    ensures { result ≡ outcome (role_update_verdict guild.now edit.now) }
{
    rules::knows_role(guild, edit.role)?;
    rules::within(&edit.name, limits::NAME_BYTES)
}

/// Replaces the role.
pub fn apply(guild: &mut Guild, edit: RoleBody)
    requires open { guild.old.opened ≡ true }
    requires accepted { role_update_verdict guild.old edit ≡ None }
    ensures { guild.new ≡ role_updated guild.old edit }
{
    guild.roles.replace(edit.role());
}
