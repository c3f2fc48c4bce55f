//! A role as `role_create` and `role_update` state it.

ghost use Rattle.std.specs.Prelude.{◌≡◌, IfOk};
ghost use Rattle.role_member_edit.specs.Roles.{role_of};

use collections::Text;
use guild_model::Role;
use perm_bits::Perms;
use snowflake_id::Snowflake;
use std::alloc::{AllocError, Global};

/// A role's id, and its name, permissions and position.
#[derive(Drop)]
pub struct RoleBody {
    pub role: Snowflake,
    pub name: Text,
    pub perms: Perms,
    pub position: u32,
}

impl RoleBody {
    /// An equal value.
    pub fn copy(&self, alloc: Global) -> Result<RoleBody, AllocError>
        ensures { IfOk result (λ copy. copy ≡ self.now) }
    {
        Ok(RoleBody {
            role: self.role,
            name: self.name.copy(alloc)?,
            perms: self.perms,
            position: self.position,
        })
    }

    /// The role that is stated.
    pub fn role(self) -> Role
        ensures { result ≡ role_of self }
    {
        Role {
            id: self.role,
            name: self.name,
            permissions: self.perms,
            position: self.position,
        }
    }

    /// The role that is stated, with a name of its own.
    pub fn role_of(&self, alloc: Global) -> Result<Role, AllocError>
        ensures { IfOk result (λ role. role ≡ role_of self.now) }
    {
        Ok(self.copy(alloc)?.role())
    }
}
