//! Typed readers of the fields of a JSON object.

ghost use Rattle.std.specs.Prelude.{◌≡◌, option_map};
ghost use Rattle.std.specs.Result.{result_map_both};
ghost use Rattle.json_view.specs.Fields.{field, given, number_field, flag_field, text_field, id_value, id_field, and_then};

use crate::json_value::JsonValue;
use snowflake_id::{BadId, Snowflake};
use thiserror::Error;

/// Why an object has no field of the kind that was asked for.
#[derive(Clone, Copy, Debug, PartialEq, Eq, Error)]
pub enum ViewFault {
    /// The key does not exist.
    #[error("the field is missing")]
    Missing,
    /// The value is of another kind.
    #[error("the field has the wrong type")]
    WrongType,
    /// The value is a text that is no id.
    #[error("the field is no id")]
    BadId(BadId),
}

impl From<BadId> for ViewFault {
    ghost use Rattle.json_view.specs.declared.fields.ViewFault.TheVariants.{BadId as bad_id};
    ghost use Rattle.std.specs.Prelude.{◌≡◌};

    ghost from_gives = { λ bad fault. fault ≡ bad_id bad };

    fn from(bad: BadId) -> Self {
        ViewFault::BadId(bad)
    }
}

/// The value of a key. [`ViewFault::Missing`] comes exactly if the key does not exist.
pub fn field_of<'a, V: JsonValue>(object: &'a V, name: &str) -> Result<&'a V, ViewFault>
    ensures { result_map_both (λ v. V.meaning v.now) (λ e. e) result ≡ field name.now (V.meaning object.now) }
{
    match object.member(name) {
        None => Err(ViewFault::Missing),
        Some(value) => Ok(value),
    }
}

/// The value of a key that exists and is not null.
pub fn given_of<'a, V: JsonValue>(object: &'a V, name: &str) -> Option<&'a V>
    ensures { option_map (λ v. V.meaning v.now) result ≡ given name.now (V.meaning object.now) }
{
    match object.member(name) {
        None => None,
        Some(value) if value.is_null() => None,
        Some(value) => Some(value),
    }
}

/// A whole number from 0 to 2^64 - 1.
pub fn number_of<V: JsonValue>(object: &V, name: &str) -> Result<u64, ViewFault>
    ensures { result ≡ number_field name.now (V.meaning object.now) }
{
    match field_of(object, name)?.whole() {
        None => Err(ViewFault::WrongType),
        Some(number) => Ok(number),
    }
}

/// A boolean.
pub fn flag_of<V: JsonValue>(object: &V, name: &str) -> Result<bool, ViewFault>
    ensures { result ≡ flag_field name.now (V.meaning object.now) }
{
    match field_of(object, name)?.flag() {
        None => Err(ViewFault::WrongType),
        Some(flag) => Ok(flag),
    }
}

/// A text.
pub fn text_of<'a, V: JsonValue>(object: &'a V, name: &str) -> Result<&'a str, ViewFault>
    ensures { result_map_both (λ s. s.now) (λ e. e) result ≡ text_field name.now (V.meaning object.now) }
{
    match field_of(object, name)?.text() {
        None => Err(ViewFault::WrongType),
        Some(text) => Ok(text),
    }
}

/// The id that a value is: a text of decimal digits, or a whole number, below 2^64.
#[tactic(auto, using(crate::proofs::Ids::of_text, crate::proofs::Ids::of_other))]
pub fn id_from<V: JsonValue>(value: &V) -> Result<u64, ViewFault>
    ensures { result ≡ id_value (V.meaning value.now) }
{
    match value.text() {
        Some(text) => match Snowflake::parse(text) {
            Err(bad) => Err(ViewFault::BadId(bad)),
            Ok(id) => Ok(id.0),
        },
        None => match value.whole() {
            None => Err(ViewFault::WrongType),
            Some(number) => Ok(number),
        },
    }
}

/// An id, as [`id_from`] reads it.
pub fn id_of<V: JsonValue>(object: &V, name: &str) -> Result<u64, ViewFault>
    ensures { result ≡ id_field name.now (V.meaning object.now) }
{
    id_from(field_of(object, name)?)
}
