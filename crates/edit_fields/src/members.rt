//! Puts members into an object, in byte order of their keys.

ghost use Rattle.std.specs.Prelude.{◌≡◌, ◌∷◌, [], IfOk, OnOk};
ghost use Rattle.std.specs.Option.{option_copied};
ghost use Rattle.serde_json.specs.Data.{boolean, string};
ghost use Rattle.serde_json.specs.View.{view};
ghost use Rattle.edit_fields.specs.Fits.{IdFits, IdsFit, NullableIdFits, MaskFits, MomentFits, NullableMomentFits};
ghost use Rattle.edit_fields.specs.Members.{count, id_data, ids_data, nullable, HasPut};

use collections::Text;
use guild_model::Moment;
use perm_bits::Perms;
use serde_json::{Map, Value};
use snowflake_id::Snowflake;
use std::alloc::{AllocError, Global};

/// Puts a text.
pub fn put_str(
    alloc: Global,
    members: &mut Map<String, Value>,
    name: &str,
    text: &str,
) -> Result<(), AllocError>
    ensures { OnOk result
        (HasPut members.old.entries members.new.entries ((name.now, string text.now) ∷ [])) }
{
    let text = String::from_str(alloc, text)?;
    serde_json::put(members, alloc, name, Value::String(text))?;
    Ok(())
}

/// Puts a text.
pub fn put_text(
    alloc: Global,
    members: &mut Map<String, Value>,
    name: &str,
    text: &Text,
) -> Result<(), AllocError>
    ensures { OnOk result
        (HasPut members.old.entries members.new.entries ((name.now, string text.now) ∷ [])) }
{
    put_str(alloc, members, name, text.as_str())
}

/// Puts an id, as a text.
pub fn put_id(
    alloc: Global,
    members: &mut Map<String, Value>,
    name: &str,
    id: Snowflake,
) -> Result<(), AllocError>
    ensures put { OnOk result
        (HasPut members.old.entries members.new.entries ((name.now, id_data id) ∷ [])) }
    ensures fits { OnOk result (IdFits id) }
{
    let text = id.text(alloc)?;
    serde_json::put(members, alloc, name, Value::String(text))?;
    Ok(())
}

/// Puts a set of permissions, as a text.
pub fn put_mask(
    alloc: Global,
    members: &mut Map<String, Value>,
    name: &str,
    perms: Perms,
) -> Result<(), AllocError>
    ensures put { OnOk result
        (HasPut members.old.entries members.new.entries ((name.now, id_data perms) ∷ [])) }
    ensures fits { OnOk result (MaskFits perms) }
{
    let text = perms.mask().to_string(alloc)?;
    serde_json::put(members, alloc, name, Value::String(text))?;
    Ok(())
}

/// Puts a whole number.
pub fn put_number(
    alloc: Global,
    members: &mut Map<String, Value>,
    name: &str,
    number: u64,
) -> Result<(), AllocError>
    ensures { OnOk result
        (HasPut members.old.entries members.new.entries ((name.now, count number) ∷ [])) }
{
    serde_json::put(members, alloc, name, Value::from(number))?;
    Ok(())
}

/// Puts a moment, in milliseconds since 1970.
pub fn put_moment(
    alloc: Global,
    members: &mut Map<String, Value>,
    name: &str,
    moment: Moment,
) -> Result<(), AllocError>
    ensures put { OnOk result
        (HasPut members.old.entries members.new.entries ((name.now, count moment) ∷ [])) }
    ensures fits { OnOk result (MomentFits moment) }
{
    put_number(alloc, members, name, moment.millis())?;
    Ok(())
}

/// Puts `true` or `false`.
pub fn put_flag(
    alloc: Global,
    members: &mut Map<String, Value>,
    name: &str,
    flag: bool,
) -> Result<(), AllocError>
    ensures { OnOk result
        (HasPut members.old.entries members.new.entries ((name.now, boolean flag) ∷ [])) }
{
    serde_json::put(members, alloc, name, Value::Bool(flag))?;
    Ok(())
}

/// Puts a text or null.
pub fn put_nullable_text(
    alloc: Global,
    members: &mut Map<String, Value>,
    name: &str,
    text: Option<&Text>,
) -> Result<(), AllocError>
    ensures { OnOk result
        (HasPut members.old.entries members.new.entries
        ((name.now, nullable string (option_copied text.entry)) ∷ [])) }
{
    match text {
        None => serde_json::put(members, alloc, name, Value::Null),
        Some(text) => put_text(alloc, members, name, text),
    }
}

/// Puts an id or null.
pub fn put_nullable_id(
    alloc: Global,
    members: &mut Map<String, Value>,
    name: &str,
    id: Option<Snowflake>,
) -> Result<(), AllocError>
    ensures put { OnOk result
        (HasPut members.old.entries members.new.entries ((name.now, nullable id_data id) ∷ [])) }
    ensures fits { OnOk result (NullableIdFits id) }
{
    match id {
        None => serde_json::put(members, alloc, name, Value::Null),
        Some(id) => put_id(alloc, members, name, id),
    }
}

fn id_value(alloc: Global, id: Snowflake) -> Result<Value, AllocError>
    ensures value { IfOk result (λ v. view v ≡ id_data id) }
    ensures fits { OnOk result (IdFits id) }
{
    Ok(Value::String(id.text(alloc)?))
}

fn ids_value(alloc: Global, ids: &[Snowflake]) -> Result<Value, AllocError>
    ensures value { IfOk result (λ v. view v ≡ ids_data ids.now) }
    ensures fits { OnOk result (IdsFit ids.now) }
{
    let mut list = Vec::new(alloc);
    for id in ids {
        let value = id_value(alloc, *id)?;
        serde_json::push(&mut list, value)?;
    }
    Ok(Value::Array(list))
}

/// Puts a list of ids.
pub fn put_ids(
    alloc: Global,
    members: &mut Map<String, Value>,
    name: &str,
    ids: &[Snowflake],
) -> Result<(), AllocError>
    ensures put { OnOk result
        (HasPut members.old.entries members.new.entries ((name.now, ids_data ids.now) ∷ [])) }
    ensures fits { OnOk result (IdsFit ids.now) }
{
    let value = ids_value(alloc, ids)?;
    serde_json::put(members, alloc, name, value)?;
    Ok(())
}

/// Puts a moment or null.
pub fn put_nullable_moment(
    alloc: Global,
    members: &mut Map<String, Value>,
    name: &str,
    moment: Option<Moment>,
) -> Result<(), AllocError>
    ensures put { OnOk result
        (HasPut members.old.entries members.new.entries ((name.now, nullable count moment) ∷ [])) }
    ensures fits { OnOk result (NullableMomentFits moment) }
{
    match moment {
        None => serde_json::put(members, alloc, name, Value::Null),
        Some(moment) => put_moment(alloc, members, name, moment),
    }
}
