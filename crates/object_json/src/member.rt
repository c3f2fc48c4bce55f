//! Members.

ghost use Rattle.std.specs.Prelude.{None, OnOk, IfSome};
ghost use Rattle.object_json.specs.Added.{Adds};
ghost use Rattle.object_json.specs.Fits.{IsId};
ghost use Rattle.object_json.specs.Member.{member_data, MemberFits};

use crate::fault::ReadFault;
use crate::field::{close, id_field_if, maybe_text_field, maybe_time_field, open, time_field};
use crate::readable::{Readable, list_at, nullable_at, value_at};
use crate::written::{Written, list_field, value_field};
use dispatch_types::MemberObject;
use json::Writer;
use json_view::Node;
use snowflake_id::Snowflake;
use std::alloc::{AllocError, Global};

/// Writes a member, with its guild where that is named.
pub fn write_member(
    alloc: Global,
    out: &mut Writer,
    guild: Option<Snowflake>,
    member: &MemberObject,
) -> Result<(), AllocError>
    ensures adds { Adds result out.old out.new (member_data guild member.now) }
    ensures fits { OnOk result (IfSome guild IsId × MemberFits member.now) }
{
    open(out)?;
    maybe_time_field(alloc, out, "communication_disabled_until", member.timeout)?;
    id_field_if(out, "guild_id", guild)?;
    time_field(alloc, out, "joined_at", member.joined)?;
    maybe_text_field(out, "nick", &member.nick)?;
    list_field(alloc, out, "roles", &member.roles)?;
    value_field(alloc, out, "user", &member.user)?;
    close(out)?;
    Ok(())
}

/// A member without its guild.
impl Written for MemberObject {
    ghost use Rattle.std.specs.Prelude.{None};
    ghost use Rattle.object_json.specs.Member.{member_data};
    ghost use Rattle.object_json.specs.Member.{MemberFits};

    ghost json = { member_data None };

    ghost Fits = { MemberFits };

    fn write(&self, alloc: Global, out: &mut Writer) -> Result<(), AllocError> {
        write_member(alloc, out, None, self)
    }
}

impl Readable for MemberObject {
    ghost use Rattle.object_json.specs.Member.{member_from};

    ghost from = { member_from };

    fn read(alloc: Global, object: &Node<'_>) -> Result<MemberObject, ReadFault> {
        let timeout = nullable_at(alloc, object, "communication_disabled_until")?;
        let joined = value_at(alloc, object, "joined_at")?;
        let nick = nullable_at(alloc, object, "nick")?;
        let roles = list_at(alloc, object, "roles")?;
        let user = value_at(alloc, object, "user")?;
        Ok(MemberObject {
            user,
            nick,
            roles,
            joined,
            timeout,
        })
    }
}
