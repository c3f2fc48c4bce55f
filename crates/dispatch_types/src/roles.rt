//! Dispatches of roles: GUILD_ROLE_CREATE, GUILD_ROLE_UPDATE and GUILD_ROLE_DELETE.

use guild_model::Role;
use snowflake_id::Snowflake;

/// A role of a guild that is created or replaced (Gateway Events, Guild Role Create and Guild Role
/// Update).
pub struct GuildRole {
    pub guild: Snowflake,
    pub role: Role,
}

impl Drop for GuildRole {
    fn drop(self) {
        let GuildRole { guild: _, role } = self;
        drop(role);
    }
}

impl GuildRole {
    ghost use Rattle.std.specs.Prelude.{◌≡◌};

    /// The role.
    pub fn into_role(self) -> Role
        ensures { result ≡ self.role }
    {
        let GuildRole { guild: _, role } = self;
        role
    }
}

/// A role of a guild that is deleted (Gateway Events, Guild Role Delete).
#[derive(Clone, Copy, PartialEq, Eq, Debug)]
pub struct GuildRoleDelete {
    pub guild: Snowflake,
    pub role: Snowflake,
}
