//! A role of a guild.

ghost use Rattle.std.specs.Prelude.{◌≡◌, IfOk};

use collections::{Duplicate, Keyed, Text};
use perm_bits::Perms;
use snowflake_id::Snowflake;
use std::alloc::{AllocError, Global};

/// A role (Permissions, Role Object). The role @everyone has the guild's id.
pub struct Role {
    pub id: Snowflake,
    pub name: Text,
    pub permissions: Perms,
    pub position: u32,
}

impl Drop for Role {
    fn drop(self) {
        let Role {
            id: _,
            name,
            permissions: _,
            position: _,
        } = self;
        drop(name);
    }
}

impl Keyed for Role {
    ghost key = { λ r. r.id };

    fn key(&self) -> u64 {
        self.id.0
    }
}

impl Duplicate for Role {
    fn duplicate(&self, alloc: Global) -> Result<Role, AllocError> {
        Ok(Role {
            id: self.id,
            name: self.name.copy(alloc)?,
            permissions: self.permissions,
            position: self.position,
        })
    }
}
