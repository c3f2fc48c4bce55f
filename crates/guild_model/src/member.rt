//! A member of a guild.

ghost use Rattle.std.specs.Prelude.{◌≡◌, IfOk};

use crate::moment::Moment;
use crate::user::User;
use collections::{ById, Duplicate, Keyed, Text};
use snowflake_id::Snowflake;
use std::alloc::{AllocError, Global};

/// A user as a member of a guild (Guild Resource, Guild Member Object).
pub struct Member {
    pub user: User,
    pub nick: Option<Text>,
    /// The held roles, without @everyone.
    pub roles: ById<Snowflake>,
    pub joined: Moment,
    /// The end of a timeout (`communication_disabled_until`).
    pub timeout: Option<Moment>,
}

impl Drop for Member {
    fn drop(self) {
        let Member {
            user,
            nick,
            roles,
            joined: _,
            timeout: _,
        } = self;
        drop(user);
        drop(nick);
        drop(roles);
    }
}

impl Keyed for Member {
    ghost key = { λ m. m.user.id };

    fn key(&self) -> u64 {
        self.user.id.0
    }
}

/// A copy of a text that may be missing.
pub fn copy_text(alloc: Global, text: &Option<Text>) -> Result<Option<Text>, AllocError>
    ensures { IfOk result (λ copy. copy ≡ text.now) }
{
    match text {
        Some(text) => Ok(Some(text.copy(alloc)?)),
        None => Ok(None),
    }
}

impl Duplicate for Member {
    fn duplicate(&self, alloc: Global) -> Result<Member, AllocError> {
        Ok(Member {
            user: self.user.duplicate(alloc)?,
            nick: copy_text(alloc, &self.nick)?,
            roles: self.roles.copy(alloc)?,
            joined: self.joined,
            timeout: self.timeout,
        })
    }
}
