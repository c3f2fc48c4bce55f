//! `member_nick`: sets or clears a member's nickname (Gateway Events, Guild Member Update).

ghost use Rattle.std.specs.Prelude.{◌≡◌, None, true, refl, IfOk};
ghost use Rattle.guild_model.specs.Tests.{outcome};
ghost use Rattle.role_member_edit.specs.Members.{member_nick_verdict, member_nicked, nick_verdict, with_nick};

use collections::{Change, Text};
use guild_model::member::copy_text;
use guild_model::{Guild, Member, Verdict, limits, rules};
use snowflake_id::Snowflake;
use std::alloc::{AllocError, Global};

/// A member's new nickname, or none.
#[derive(Drop)]
pub struct MemberNick {
    pub user: Snowflake,
    pub nick: Option<Text>,
}

impl MemberNick {
    /// An equal value.
    pub fn copy(&self, alloc: Global) -> Result<MemberNick, AllocError>
        ensures { IfOk result (λ copy. copy ≡ self.now) }
    {
        Ok(MemberNick {
            user: self.user,
            nick: copy_text(alloc, &self.nick)?,
        })
    }
}

fn check_nick(nick: &Option<Text>) -> Result<(), Verdict>
    ensures { result ≡ outcome (nick_verdict nick.now) }
{
    match nick {
        Some(nick) => rules::within(nick, limits::NICK_BYTES),
        None => Ok(()),
    }
}

/// Refused in this order: `UnknownMember`, `TooLong` for the nickname.
pub fn check(guild: &Guild, edit: &MemberNick) -> Result<(), Verdict>
    ensures { result ≡ outcome (member_nick_verdict guild.now edit.now) }
{
    rules::knows_member(guild, edit.user)?;
    check_nick(&edit.nick)
}

#[derive(Drop)]
struct SetNick {
    nick: Option<Text>,
}

impl Change<Member> for SetNick {
    ghost changed = { λ change m. with_nick change.nick m };

    fn change(self, member: &mut Member) {
        member.nick = self.nick;
    }

    ghost keeps_key = { λ change m. refl };
}

/// Sets the nickname.
pub fn apply(guild: &mut Guild, edit: MemberNick)
    requires open { guild.old.opened ≡ true }
    requires accepted { member_nick_verdict guild.old edit ≡ None }
    ensures { guild.new ≡ member_nicked guild.old edit }
{
    guild
        .members
        .change(edit.user.0, SetNick { nick: edit.nick });
}
