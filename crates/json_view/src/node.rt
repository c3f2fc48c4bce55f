//! A JSON value that borrows from the text that it stands in.

ghost use Rattle.std.specs.Prelude.{◌≡◌, is_some, option_map};
ghost use Rattle.std.specs.Str.{bytes_eq};
ghost use Rattle.json.specs.Find.{get as json_get, get_member};
ghost use Rattle.json.specs.Value.{value_view, members_view};
ghost use Rattle.serde_json.specs.Find.{as_array, as_object};
ghost use Rattle.json_view.specs.Nodes.{items_view, view};

use crate::json_value::JsonValue;
use crate::number::whole_number;
use json::Value;

/// Whether a value is an object.
pub fn is_object(value: &Value<'_>) -> bool
    ensures { result ≡ is_some (as_object (view value.now)) }
{
    matches!(value, Value::Object(_))
}

/// The items of a list. `None` exactly if the value is no list.
pub fn list_of<'a, 't>(value: &'a Value<'t>) -> Option<&'a [Value<'t>]>
    ensures { option_map (λ list. items_view list.now) result ≡ as_array (view value.now) }
{
    match value {
        Value::Array(items) => Some(items.as_slice()),
        _ => None,
    }
}

// Whether a key is that name. Most keys differ from it in their lengths, and to compare bytes is a call.
fn is_named(key: &str, name: &str) -> bool
    ensures { result ≡ bytes_eq key.now name.now }
{
    key.len() == name.len() && key == name
}

// The value of the last member of that name.
fn last_named<'v, 't>(members: &'v [(&'t str, Value<'t>)], name: &str) -> Option<&'v Value<'t>>
    ensures { option_map (λ v. value_view v.now) result ≡ get_member name.now (members_view members.now) }
{
    let mut left = members.len();
    while left > 0 {
        left -= 1;
        let member = &members[left];
        if is_named(member.0, name) {
            return Some(&member.1);
        }
    }
    None
}

// The value of the last member of that name, where the value is an object.
fn get<'v, 't>(value: &'v Value<'t>, name: &str) -> Option<&'v Value<'t>>
    ensures { option_map (λ v. value_view v.now) result ≡ json_get name.now (value_view value.now) }
{
    match value {
        Value::Object(members) => last_named(members.as_slice(), name),
        _ => None,
    }
}

impl<'t> JsonValue for Value<'t> {
    ghost use Rattle.json_view.specs.Nodes.{view};

    ghost meaning = { view };

    fn member(&self, name: &str) -> Option<&Value<'t>> {
        get(self, name)
    }

    fn is_null(&self) -> bool {
        matches!(self, Value::Null)
    }

    fn whole(&self) -> Option<u64> {
        match self {
            Value::Number(text) => whole_number(text),
            _ => None,
        }
    }

    fn flag(&self) -> Option<bool> {
        match self {
            Value::Bool(flag) => Some(*flag),
            _ => None,
        }
    }

    fn text(&self) -> Option<&str> {
        match self {
            Value::String(text) => Some(*text),
            _ => None,
        }
    }
}
