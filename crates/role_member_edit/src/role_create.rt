//! `role_create`: creates a role (Gateway Events, Guild Role Create).

ghost use Rattle.std.specs.Prelude.{◌≡◌, None, true, OnOk, OnErr};
ghost use Rattle.guild_model.specs.Tests.{outcome};
ghost use Rattle.role_member_edit.specs.Roles.{role_create_verdict, role_created};

use crate::role_body::RoleBody;
use guild_model::{Guild, Verdict, limits, rules};
use std::alloc::AllocError;

/// Refused in this order: `IdTaken` where the role exists, `TooMany`, `TooLong` for the name.
pub fn check(guild: &Guild, edit: &RoleBody) -> Result<(), Verdict>
    ensures { result ≡ outcome (role_create_verdict guild.now edit.now) }
{
    if guild.roles.contains(edit.role.0) {
        return Err(Verdict::IdTaken);
    }
    rules::has_room(guild.roles.len(), limits::ROLES)?;
    rules::within(&edit.name, limits::NAME_BYTES)
}

/// Adds the role. If it runs out of memory, the record stays as it was.
pub fn apply(guild: &mut Guild, edit: RoleBody) -> Result<(), AllocError>
    requires open { guild.old.opened ≡ true }
    requires accepted { role_create_verdict guild.old edit ≡ None }
    ensures ok { OnOk result (guild.new ≡ role_created guild.old edit) }
    ensures err { OnErr result (guild.new ≡ guild.old) }
{
    guild.roles.insert(edit.role())?;
    Ok(())
}
