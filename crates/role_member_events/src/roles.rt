//! GUILD_ROLE_CREATE, GUILD_ROLE_UPDATE and GUILD_ROLE_DELETE (Gateway Events, Guild Role Create, Guild
//! Role Update and Guild Role Delete).

ghost use Rattle.std.specs.Prelude.{◌≡◌, ◌++◌, OnOk, IfOk};
ghost use Rattle.role_member_events.specs.Dispatches.{guild_role, role_creates, role_updates, role_deletes};

use dispatch_types::{Dispatch, GuildRole, GuildRoleDelete};
use event_views::Recipient;
use intent_set::Kind;
use role_member_edit::RoleBody;
use snowflake_id::Snowflake;
use std::alloc::{AllocError, Global};

fn guild_role(alloc: Global, to: &Recipient<'_>, edit: &RoleBody) -> Result<GuildRole, AllocError>
    ensures { IfOk result (λ role. role ≡ guild_role to.now.after.id edit.now) }
{
    Ok(GuildRole {
        guild: to.guild(),
        role: edit.role_of(alloc)?,
    })
}

/// Adds GUILD_ROLE_CREATE.
pub fn add_created(
    alloc: Global,
    to: &Recipient<'_>,
    edit: &RoleBody,
    list: &mut Vec<Dispatch>,
) -> Result<(), AllocError>
    ensures { OnOk result (list.new.items
        ≡ list.old.items ++ role_creates to.now.after to.now.viewer edit.now) }
{
    if !to.asks(Kind::GuildRoleCreate, false) {
        return Ok(());
    }
    let role = guild_role(alloc, to, edit)?;
    list.push(Dispatch::GuildRoleCreate(role))?;
    Ok(())
}

/// Adds GUILD_ROLE_UPDATE.
pub fn add_updated(
    alloc: Global,
    to: &Recipient<'_>,
    edit: &RoleBody,
    list: &mut Vec<Dispatch>,
) -> Result<(), AllocError>
    ensures { OnOk result (list.new.items
        ≡ list.old.items ++ role_updates to.now.after to.now.viewer edit.now) }
{
    if !to.asks(Kind::GuildRoleUpdate, false) {
        return Ok(());
    }
    let role = guild_role(alloc, to, edit)?;
    list.push(Dispatch::GuildRoleUpdate(role))?;
    Ok(())
}

/// Adds GUILD_ROLE_DELETE.
pub fn add_deleted(
    to: &Recipient<'_>,
    role: Snowflake,
    list: &mut Vec<Dispatch>,
) -> Result<(), AllocError>
    ensures { OnOk result (list.new.items
        ≡ list.old.items ++ role_deletes to.now.after to.now.viewer role) }
{
    if !to.asks(Kind::GuildRoleDelete, false) {
        return Ok(());
    }
    let guild = to.guild();
    list.push(Dispatch::GuildRoleDelete(GuildRoleDelete { guild, role }))?;
    Ok(())
}
