//! The body of READY.

ghost use Rattle.std.specs.Prelude.{◌≡◌, OnOk, IfSome, codes, option_map};
ghost use Rattle.json_view.specs.Nodes.{view, items_view};
ghost use Rattle.object_json.specs.Reading.{UnlessMemory};
ghost use Rattle.object_json.specs.Reading.{items_from, list_at, optional_at};
ghost use Rattle.object_json.specs.Added.{Adds, AddsTokens, member_tokens, member_tokens_if};
ghost use Rattle.object_json.specs.Kinds.{list};
ghost use Rattle.event_json.specs.Ready.{application_data, unavailable_data, shard_data, ready_data, unavailable_from, whole_from, shard_of, pair_from, shard_from, ready_from, ShardFits, ReadyFits};
ghost use Rattle.object_json.specs.Fits.{Each, IsId};

use collections::Seq;
use dispatch_types::{Ready, Shard};
use json::Writer;
use json_view::{JsonValue, Node, list_of};
use object_json::fault::ReadFault;
use object_json::field::{close, flag_field, id_field, key, number_field, open, text_field};
use object_json::readable::value_at;
use object_json::reading::{field_at, id_at, text_at};
use object_json::written::value_field;
use snowflake_id::Snowflake;
use std::alloc::{AllocError, Global};

fn application_field(out: &mut Writer, user: Snowflake) -> Result<(), AllocError>
    ensures adds { AddsTokens result out.old out.new (member_tokens (codes "application") (application_data user)) }
    ensures fits { OnOk result (IsId user) }
{
    key(out, "application")?;
    open(out)?;
    number_field(out, "flags", 0)?;
    id_field(out, "id", user)?;
    close(out)?;
    Ok(())
}

fn unavailable(out: &mut Writer, guild: Snowflake) -> Result<(), AllocError>
    ensures adds { Adds result out.old out.new (unavailable_data guild) }
    ensures fits { OnOk result (IsId guild) }
{
    open(out)?;
    id_field(out, "id", guild)?;
    flag_field(out, "unavailable", true)?;
    close(out)?;
    Ok(())
}

fn guilds(out: &mut Writer, guilds: &[Snowflake]) -> Result<(), AllocError>
    ensures adds { Adds result out.old out.new (list unavailable_data guilds.now) }
    ensures fits { OnOk result (Each IsId guilds.now) }
{
    out.begin_array()?;
    for guild in guilds {
        unavailable(out, *guild)?;
    }
    out.end_array()?;
    Ok(())
}

fn guilds_field(out: &mut Writer, ids: &Seq<Snowflake>) -> Result<(), AllocError>
    ensures adds { AddsTokens result out.old out.new (member_tokens (codes "guilds") (list unavailable_data ids.now)) }
    ensures fits { OnOk result (Each IsId ids.now) }
{
    key(out, "guilds")?;
    guilds(out, ids.as_slice())?;
    Ok(())
}

fn shard(out: &mut Writer, shard: Shard) -> Result<(), AllocError>
    ensures adds { Adds result out.old out.new (shard_data shard) }
    ensures fits { OnOk result (ShardFits shard) }
{
    out.begin_array()?;
    out.u64(shard.id())?;
    out.u64(shard.count())?;
    out.end_array()?;
    Ok(())
}

fn shard_field_if(out: &mut Writer, of: Option<Shard>) -> Result<(), AllocError>
    ensures adds { AddsTokens result out.old out.new (member_tokens_if (codes "shard") (option_map shard_data of)) }
    ensures fits { OnOk result (IfSome of ShardFits) }
{
    let Some(of) = of else {
        return Ok(());
    };
    key(out, "shard")?;
    shard(out, of)?;
    Ok(())
}

/// Writes the body of Ready (Gateway Events, Ready).
pub fn write_ready(alloc: Global, out: &mut Writer, ready: &Ready) -> Result<(), AllocError>
    ensures adds { Adds result out.old out.new (ready_data ready.now) }
    ensures fits { OnOk result (ReadyFits ready.now) }
{
    open(out)?;
    application_field(out, ready.user.id)?;
    guilds_field(out, &ready.guilds)?;
    text_field(out, "resume_gateway_url", &ready.url)?;
    text_field(out, "session_id", &ready.session)?;
    shard_field_if(out, ready.shard)?;
    value_field(alloc, out, "user", &ready.user)?;
    number_field(out, "v", 10)?;
    close(out)?;
    Ok(())
}

fn guilds_from(alloc: Global, list: &[Node<'_>]) -> Result<Seq<Snowflake>, ReadFault>
    ensures { UnlessMemory result (items_from unavailable_from (items_view list.now)) }
{
    let mut guilds = Seq::new(alloc);
    for value in list {
        let guild = id_at(value, "id")?;
        guilds.push(guild)?;
    }
    Ok(guilds)
}

fn guilds_at(alloc: Global, body: &Node<'_>) -> Result<Seq<Snowflake>, ReadFault>
    ensures { UnlessMemory result (list_at unavailable_from (codes "guilds") (view body.now)) }
{
    let guilds = list_of(field_at(body, "guilds")?).ok_or(ReadFault::BadField)?;
    guilds_from(alloc, guilds)
}

fn whole_from(value: &Node<'_>) -> Result<u64, ReadFault>
    ensures { result ≡ whole_from (view value.now) }
{
    value.whole().ok_or(ReadFault::BadField)
}

fn shard_of(id: u64, count: u64) -> Result<Shard, ReadFault>
    ensures { result ≡ shard_of id count }
{
    Shard::new(id, count).map_err(|_| ReadFault::BadField)
}

fn pair_from(list: &[Node<'_>]) -> Result<Shard, ReadFault>
    ensures { result ≡ pair_from (items_view list.now) }
{
    if list.len() != 2 {
        return Err(ReadFault::BadField);
    }
    let id = whole_from(&list[0])?;
    let count = whole_from(&list[1])?;
    shard_of(id, count)
}

fn shard_from(value: &Node<'_>) -> Result<Shard, ReadFault>
    ensures { result ≡ shard_from (view value.now) }
{
    let pair = list_of(value).ok_or(ReadFault::BadField)?;
    pair_from(pair)
}

fn shard_at(body: &Node<'_>) -> Result<Option<Shard>, ReadFault>
    ensures { result ≡ optional_at shard_from (codes "shard") (view body.now) }
{
    match body.member("shard") {
        None => Ok(None),
        Some(shard) => Ok(Some(shard_from(shard)?)),
    }
}

/// Reads the body of Ready.
pub fn read_ready(alloc: Global, body: &Node<'_>) -> Result<Ready, ReadFault>
    ensures { UnlessMemory result (ready_from (view body.now)) }
{
    let guilds = guilds_at(alloc, body)?;
    let url = text_at(alloc, body, "resume_gateway_url")?;
    let session = text_at(alloc, body, "session_id")?;
    let shard = shard_at(body)?;
    let user = value_at(alloc, body, "user")?;
    Ok(Ready {
        user,
        guilds,
        session,
        url,
        shard,
    })
}
