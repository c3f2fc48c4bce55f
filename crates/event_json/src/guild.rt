//! The bodies of GUILD_CREATE, GUILD_UPDATE, GUILD_DELETE, and of those of roles.

ghost use Rattle.std.specs.Prelude.{◌≡◌, OnOk};
ghost use Rattle.json_view.specs.Nodes.{view};
ghost use Rattle.object_json.specs.Reading.{UnlessMemory};
ghost use Rattle.object_json.specs.Added.{Adds, Ends};
ghost use Rattle.event_json.specs.Guild.{guild_create_data, guild_create_rest, guild_update_data, guild_delete_data, guild_role_data, guild_role_delete_data, guild_create_from, guild_update_from, guild_delete_from, guild_role_from, guild_role_delete_from, GuildRestFits, GuildCreateFits, GuildUpdateFits, GuildDeleteFits, GuildRoleFits, GuildRoleDeleteFits};

use dispatch_types::{GuildCreate, GuildDelete, GuildRole, GuildRoleDelete, GuildUpdate};
use json::Writer;
use json_view::Node;
use object_json::fault::ReadFault;
use object_json::field::{
    close, flag_field, id_field, number_field, open, text_field, true_field_if,
};
use object_json::readable::{list_at, value_at};
use object_json::reading::{flag_at, id_at, is_there, number_at, text_at};
use object_json::written::{list_field, value_field};
use std::alloc::{AllocError, Global};

fn end_guild_create(alloc: Global, out: &mut Writer, guild: &GuildCreate) -> Result<(), AllocError>
    ensures adds { Ends result out.old out.new (guild_create_rest guild.now) }
    ensures fits { OnOk result (GuildRestFits guild.now) }
{
    text_field(out, "name", &guild.name)?;
    id_field(out, "owner_id", guild.owner)?;
    list_field(alloc, out, "presences", &guild.presences)?;
    list_field(alloc, out, "roles", &guild.roles)?;
    list_field(alloc, out, "threads", &guild.threads)?;
    list_field(alloc, out, "voice_states", &guild.voices)?;
    close(out)?;
    Ok(())
}

/// Writes the body of Guild Create.
pub fn write_guild_create(
    alloc: Global,
    out: &mut Writer,
    guild: &GuildCreate,
) -> Result<(), AllocError>
    ensures adds { Adds result out.old out.new (guild_create_data guild.now) }
    ensures fits { OnOk result (GuildCreateFits guild.now) }
{
    open(out)?;
    list_field(alloc, out, "channels", &guild.channels)?;
    id_field(out, "id", guild.id)?;
    flag_field(out, "large", guild.large)?;
    number_field(out, "member_count", guild.member_count)?;
    list_field(alloc, out, "members", &guild.members)?;
    end_guild_create(alloc, out, guild)?;
    Ok(())
}

/// Writes the body of Guild Update.
pub fn write_guild_update(out: &mut Writer, update: &GuildUpdate) -> Result<(), AllocError>
    ensures adds { Adds result out.old out.new (guild_update_data update.now) }
    ensures fits { OnOk result (GuildUpdateFits update.now) }
{
    open(out)?;
    id_field(out, "id", update.id)?;
    text_field(out, "name", &update.name)?;
    id_field(out, "owner_id", update.owner)?;
    close(out)?;
    Ok(())
}

/// Writes the body of Guild Delete.
pub fn write_guild_delete(out: &mut Writer, delete: &GuildDelete) -> Result<(), AllocError>
    ensures adds { Adds result out.old out.new (guild_delete_data delete.now) }
    ensures fits { OnOk result (GuildDeleteFits delete.now) }
{
    open(out)?;
    id_field(out, "id", delete.id)?;
    true_field_if(out, "unavailable", delete.unavailable)?;
    close(out)?;
    Ok(())
}

/// Writes the body of Guild Role Create and of Guild Role Update.
pub fn write_guild_role(alloc: Global, out: &mut Writer, role: &GuildRole) -> Result<(), AllocError>
    ensures adds { Adds result out.old out.new (guild_role_data role.now) }
    ensures fits { OnOk result (GuildRoleFits role.now) }
{
    open(out)?;
    id_field(out, "guild_id", role.guild)?;
    value_field(alloc, out, "role", &role.role)?;
    close(out)?;
    Ok(())
}

/// Writes the body of Guild Role Delete.
pub fn write_guild_role_delete(out: &mut Writer, delete: &GuildRoleDelete) -> Result<(), AllocError>
    ensures adds { Adds result out.old out.new (guild_role_delete_data delete.now) }
    ensures fits { OnOk result (GuildRoleDeleteFits delete.now) }
{
    open(out)?;
    id_field(out, "guild_id", delete.guild)?;
    id_field(out, "role_id", delete.role)?;
    close(out)?;
    Ok(())
}

/// Reads the body of Guild Create.
pub fn read_guild_create(alloc: Global, body: &Node<'_>) -> Result<GuildCreate, ReadFault>
    ensures { UnlessMemory result (guild_create_from (view body.now)) }
{
    let channels = list_at(alloc, body, "channels")?;
    let id = id_at(body, "id")?;
    let large = flag_at(body, "large")?;
    let member_count = number_at(body, "member_count")?;
    let members = list_at(alloc, body, "members")?;
    let name = text_at(alloc, body, "name")?;
    let owner = id_at(body, "owner_id")?;
    let presences = list_at(alloc, body, "presences")?;
    let roles = list_at(alloc, body, "roles")?;
    let threads = list_at(alloc, body, "threads")?;
    let voices = list_at(alloc, body, "voice_states")?;
    Ok(GuildCreate {
        id,
        name,
        owner,
        roles,
        channels,
        members,
        member_count,
        large,
        threads,
        voices,
        presences,
    })
}

/// Reads the body of Guild Update.
pub fn read_guild_update(alloc: Global, body: &Node<'_>) -> Result<GuildUpdate, ReadFault>
    ensures { UnlessMemory result (guild_update_from (view body.now)) }
{
    let id = id_at(body, "id")?;
    let name = text_at(alloc, body, "name")?;
    let owner = id_at(body, "owner_id")?;
    Ok(GuildUpdate { id, name, owner })
}

/// Reads the body of Guild Delete.
pub fn read_guild_delete(body: &Node<'_>) -> Result<GuildDelete, ReadFault>
    ensures { result ≡ guild_delete_from (view body.now) }
{
    let id = id_at(body, "id")?;
    let unavailable = is_there(body, "unavailable");
    Ok(GuildDelete { id, unavailable })
}

/// Reads the body of Guild Role Create and of Guild Role Update.
pub fn read_guild_role(alloc: Global, body: &Node<'_>) -> Result<GuildRole, ReadFault>
    ensures { UnlessMemory result (guild_role_from (view body.now)) }
{
    let guild = id_at(body, "guild_id")?;
    let role = value_at(alloc, body, "role")?;
    Ok(GuildRole { guild, role })
}

/// Reads the body of Guild Role Delete.
pub fn read_guild_role_delete(body: &Node<'_>) -> Result<GuildRoleDelete, ReadFault>
    ensures { result ≡ guild_role_delete_from (view body.now) }
{
    let guild = id_at(body, "guild_id")?;
    let role = id_at(body, "role_id")?;
    Ok(GuildRoleDelete { guild, role })
}
