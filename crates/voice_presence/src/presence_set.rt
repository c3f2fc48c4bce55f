//! `presence_set`: sets the status of a member. A member that is invisible or offline has no presence
//! (Gateway Events, Presence Update).

ghost use Rattle.std.specs.Prelude.{◌≡◌, Some, None, true, OnOk, OnErr};
ghost use Rattle.guild_model.specs.Tests.{outcome, unknown_member};
ghost use Rattle.voice_presence.specs.Presences.{presence_set_verdict, with_shown_status, presence_was_set};

use guild_model::{Guild, Presence, ShownStatus, Status, Verdict, rules};
use snowflake_id::Snowflake;
use std::alloc::AllocError;

/// The new status of a member.
#[derive(Clone, Copy, Drop, PartialEq, Eq, Debug)]
pub struct PresenceSet {
    pub user: Snowflake,
    pub status: Status,
}

/// Refused with `UnknownMember`.
pub fn check(guild: &Guild, edit: &PresenceSet) -> Result<(), Verdict>
    ensures { result ≡ outcome (presence_set_verdict guild.now edit.now) }
{
    rules::knows_member(guild, edit.user)
}

fn show(guild: &mut Guild, user: Snowflake, shown: ShownStatus) -> Result<(), AllocError>
    requires open { guild.old.opened ≡ true }
    requires member { unknown_member guild.old user ≡ None }
    ensures ok { OnOk result (guild.new ≡ with_shown_status guild.old user (Some shown)) }
    ensures err { OnErr result (guild.new ≡ guild.old) }
{
    guild.presences.put(Presence {
        user,
        status: shown,
    })?;
    Ok(())
}

fn hide(guild: &mut Guild, user: Snowflake)
    requires { guild.old.opened ≡ true }
    ensures { guild.new ≡ with_shown_status guild.old user None }
{
    guild.presences.remove(user.0);
}

/// Sets the presence, or removes it. If it runs out of memory, the record stays as it was.
pub fn apply(guild: &mut Guild, edit: PresenceSet) -> Result<(), AllocError>
    requires open { guild.old.opened ≡ true }
    requires accepted { presence_set_verdict guild.old edit ≡ None }
    ensures ok { OnOk result (guild.new ≡ presence_was_set guild.old edit) }
    ensures err { OnErr result (guild.new ≡ guild.old) }
{
    match edit.status.shown() {
        Some(shown) => show(guild, edit.user, shown)?,
        None => hide(guild, edit.user),
    }
    Ok(())
}
