//! A user.

ghost use Rattle.std.specs.Prelude.{◌≡◌, IfOk};

use collections::{Duplicate, Keyed, Text};
use snowflake_id::Snowflake;
use std::alloc::{AllocError, Global};

/// A user (User Resource, User Object).
pub struct User {
    pub id: Snowflake,
    pub name: Text,
    pub bot: bool,
}

impl Drop for User {
    fn drop(self) {
        let User {
            id: _,
            name,
            bot: _,
        } = self;
        drop(name);
    }
}

impl Keyed for User {
    ghost key = { λ u. u.id };

    fn key(&self) -> u64 {
        self.id.0
    }
}

impl Duplicate for User {
    fn duplicate(&self, alloc: Global) -> Result<User, AllocError> {
        Ok(User {
            id: self.id,
            name: self.name.copy(alloc)?,
            bot: self.bot,
        })
    }
}
