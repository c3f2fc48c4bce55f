//! Changes of a record's parts that edits and clients have in common.

ghost use Rattle.std.specs.Prelude.{◌≡◌, refl};
ghost use Rattle.guild_model.specs.Changes.{without_role, without_role_overwrite};

use crate::channel::Channel;
use crate::member::Member;
use collections::Change;
use snowflake_id::Snowflake;

/// A member no longer holds a role.
#[derive(Clone, Copy, Debug)]
pub struct WithoutRole(pub Snowflake);

impl Change<Member> for WithoutRole {
    ghost changed = { λ change m. without_role change.0 m };

    fn change(self, member: &mut Member) {
        member.roles.remove(self.0.0);
    }

    ghost keeps_key = { λ change m. refl };
}

impl Change<Channel> for WithoutRole {
    ghost changed = { λ change c. without_role_overwrite change.0 c };

    fn change(self, channel: &mut Channel) {
        channel.overwrites.roles.remove(self.0.0);
    }

    ghost keeps_key = { λ change c. refl };
}
