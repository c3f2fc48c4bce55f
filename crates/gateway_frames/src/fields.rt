//! Typed readers of a frame's fields. A field of another type is `BadShape`.

ghost use Rattle.std.specs.Prelude.{◌≡◌};
ghost use Rattle.std.specs.Result.{result_map_both};
ghost use Rattle.serde_json.specs.View.{view, items_view};
ghost use Rattle.gateway_frames.specs.Shape.{text_at, whole_at, id_at, nullable_id_at, optional_whole, optional_flag, flag_or_false, optional_pair, pair_from};

use crate::FrameFault;
use json_view::{field_of, given_of, id_from, id_of, number_of, text_of};
use serde_json::Value;
use snowflake_id::Snowflake;

/// A text.
pub fn text_at<'a>(object: &'a Value, name: &str) -> Result<&'a str, FrameFault>
    ensures { result_map_both (λ s. s.now) (λ e. e) result ≡ text_at name.now (view object.now) }
{
    Ok(text_of(object, name)?)
}

/// A whole number below 2^64.
pub fn whole_at(object: &Value, name: &str) -> Result<u64, FrameFault>
    ensures { result ≡ whole_at name.now (view object.now) }
{
    Ok(number_of(object, name)?)
}

/// An id: a whole number, or a text of digits.
pub fn id_at(object: &Value, name: &str) -> Result<Snowflake, FrameFault>
    ensures { result ≡ id_at name.now (view object.now) }
{
    Ok(Snowflake(id_of(object, name)?))
}

/// An id or null. The key has to exist.
pub fn nullable_id_at(object: &Value, name: &str) -> Result<Option<Snowflake>, FrameFault>
    ensures { result ≡ nullable_id_at name.now (view object.now) }
{
    let value = field_of(object, name)?;
    if value.is_null() {
        return Ok(None);
    }
    Ok(Some(Snowflake(id_from(value)?)))
}

/// A whole number, or `None` if the key does not exist or is null.
pub fn optional_whole(object: &Value, name: &str) -> Result<Option<u64>, FrameFault>
    ensures { result ≡ optional_whole name.now (view object.now) }
{
    let Some(value) = given_of(object, name) else {
        return Ok(None);
    };
    let number = value.as_u64().ok_or(FrameFault::BadShape)?;
    Ok(Some(number))
}

/// A boolean, or `None` if the key does not exist or is null.
pub fn optional_flag(object: &Value, name: &str) -> Result<Option<bool>, FrameFault>
    ensures { result ≡ optional_flag name.now (view object.now) }
{
    let Some(value) = given_of(object, name) else {
        return Ok(None);
    };
    let flag = value.as_bool().ok_or(FrameFault::BadShape)?;
    Ok(Some(flag))
}

/// A boolean, or false if the key does not exist or is null.
pub fn flag_or_false(object: &Value, name: &str) -> Result<bool, FrameFault>
    ensures { result ≡ flag_or_false name.now (view object.now) }
{
    Ok(optional_flag(object, name)?.unwrap_or(false))
}

fn pair_from(list: &[Value]) -> Result<(u64, u64), FrameFault>
    ensures { result ≡ pair_from (items_view list.now) }
{
    if list.len() != 2 {
        return Err(FrameFault::BadShape);
    }
    match (list[0].as_u64(), list[1].as_u64()) {
        (Some(first), Some(second)) => Ok((first, second)),
        _ => Err(FrameFault::BadShape),
    }
}

/// A list of two whole numbers, or `None` if the key does not exist or is null.
pub fn optional_pair(object: &Value, name: &str) -> Result<Option<(u64, u64)>, FrameFault>
    ensures { result ≡ optional_pair name.now (view object.now) }
{
    let Some(value) = given_of(object, name) else {
        return Ok(None);
    };
    let list = value.as_array().ok_or(FrameFault::BadShape)?;
    Ok(Some(pair_from(list.as_slice())?))
}
