//! `role_delete`: deletes a role and its overwrites, and takes it from the members that hold it
//! (Gateway Events, Guild Role Delete).

ghost use Rattle.std.specs.Prelude.{◌≡◌, None, true};
ghost use Rattle.guild_model.specs.Tests.{outcome};
ghost use Rattle.role_member_edit.specs.Roles.{role_delete_verdict, role_deleted, everyone_role};

use guild_model::changes::WithoutRole;
use guild_model::{Guild, Verdict, rules};
use snowflake_id::Snowflake;

/// Refuses @everyone, whose id is the guild's.
pub fn not_everyone(guild: &Guild, role: Snowflake) -> Result<(), Verdict>
    ensures { result ≡ outcome (everyone_role guild.now role) }
{
    if role == guild.id {
        return Err(Verdict::EveryoneRole);
    }
    Ok(())
}

/// Refused in this order: `EveryoneRole`, `UnknownRole`.
pub fn check(guild: &Guild, role: Snowflake) -> Result<(), Verdict>
    ensures { result ≡ outcome (role_delete_verdict guild.now role) }
{
    not_everyone(guild, role)?;
    rules::knows_role(guild, role)
}

/// Deletes the role and its overwrites, and takes it from the members that hold it.
pub fn apply(guild: &mut Guild, role: Snowflake)
    requires open { guild.old.opened ≡ true }
    requires accepted { role_delete_verdict guild.old role ≡ None }
    ensures { guild.new ≡ role_deleted guild.old role }
{
    guild.roles.remove(role.0);
    guild.members.change_all(WithoutRole(role));
    guild.channels.change_all(WithoutRole(role));
}
