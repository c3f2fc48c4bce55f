//! `member_remove`: removes a member, also from threads, from voice and from the presences. Its
//! overwrites stay (Gateway Events, Guild Member Remove).

ghost use Rattle.std.specs.Prelude.{◌≡◌, None, true, refl};
ghost use Rattle.guild_model.specs.Tests.{outcome};
ghost use Rattle.role_member_edit.specs.Members.{member_remove_verdict, member_removed, without_user};

use collections::Change;
use guild_model::{Guild, Thread, Verdict, rules};
use snowflake_id::Snowflake;

/// Refused in this order: `UnknownMember`, `OwnerStays`.
pub fn check(guild: &Guild, user: Snowflake) -> Result<(), Verdict>
    ensures { result ≡ outcome (member_remove_verdict guild.now user) }
{
    rules::knows_member(guild, user)?;
    if user == guild.owner {
        return Err(Verdict::OwnerStays);
    }
    Ok(())
}

/// Removes a user from a thread.
#[derive(Clone, Copy)]
struct WithoutUser(Snowflake);

impl Change<Thread> for WithoutUser {
    ghost changed = { λ change t. without_user change.0 t };

    fn change(self, thread: &mut Thread) {
        thread.members.remove(self.0.0);
    }

    ghost keeps_key = { λ change t. refl };
}

/// Removes the user from all lists but the overwrites.
pub fn apply(guild: &mut Guild, user: Snowflake)
    requires open { guild.old.opened ≡ true }
    requires accepted { member_remove_verdict guild.old user ≡ None }
    ensures { guild.new ≡ member_removed guild.old user }
{
    guild.members.remove(user.0);
    guild.threads.change_all(WithoutUser(user));
    guild.voices.remove(user.0);
    guild.presences.remove(user.0);
}
