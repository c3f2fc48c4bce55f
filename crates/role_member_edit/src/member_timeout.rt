//! `member_timeout`: sets or clears the end of a member's timeout (Gateway Events, Guild Member
//! Update).

ghost use Rattle.std.specs.Prelude.{◌≡◌, None, true, refl};
ghost use Rattle.guild_model.specs.Tests.{outcome};
ghost use Rattle.role_member_edit.specs.Members.{member_timeout_verdict, member_timed_out, with_timeout};

use collections::Change;
use guild_model::{Guild, Member, Moment, Verdict, rules};
use snowflake_id::Snowflake;

/// The end of a member's timeout, or none.
#[derive(Clone, Copy)]
pub struct MemberTimeout {
    pub user: Snowflake,
    pub until: Option<Moment>,
}

/// Refused with `UnknownMember`.
pub fn check(guild: &Guild, edit: &MemberTimeout) -> Result<(), Verdict>
    ensures { result ≡ outcome (member_timeout_verdict guild.now edit.now) }
{
    rules::knows_member(guild, edit.user)
}

#[derive(Drop)]
struct SetTimeout {
    until: Option<Moment>,
}

impl Change<Member> for SetTimeout {
    ghost changed = { λ change m. with_timeout change.until m };

    fn change(self, member: &mut Member) {
        member.timeout = self.until;
    }

    ghost keeps_key = { λ change m. refl };
}

/// Sets the end of the timeout.
pub fn apply(guild: &mut Guild, edit: MemberTimeout)
    requires open { guild.old.opened ≡ true }
    requires accepted { member_timeout_verdict guild.old edit ≡ None }
    ensures { guild.new ≡ member_timed_out guild.old edit }
{
    guild
        .members
        .change(edit.user.0, SetTimeout { until: edit.until });
}
