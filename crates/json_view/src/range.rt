//! Whether the numbers of a value are in range.

ghost use Rattle.std.specs.Prelude.{◌≡◌};
ghost use Rattle.json.specs.Value.{value_view, items_view, members_view};
ghost use Rattle.json_view.specs.Nodes.{in_range, items_in_range, members_in_range};

use crate::number::number_in_range;
use json::Value;

/// Whether each number of a value is one that `serde_json` takes.
#[cycle(in_range)]
pub fn in_range(value: &Value<'_>) -> bool
    ensures { result ≡ in_range (value_view value.now) }
{
    match value {
        Value::Number(text) => number_in_range(text),
        Value::Array(items) => items_in_range(items),
        Value::Object(members) => members_in_range(members),
        Value::Null | Value::Bool(_) | Value::String(_) => true,
    }
}

#[cycle(in_range)]
fn items_in_range(items: &Vec<Value<'_>>) -> bool
    ensures { result ≡ items_in_range (items_view items.now.items) }
{
    for item in items {
        if !in_range(item) {
            return false;
        }
    }
    true
}

#[cycle(in_range)]
fn members_in_range(members: &Vec<(&str, Value<'_>)>) -> bool
    ensures { result ≡ members_in_range (members_view members.now.items) }
{
    for member in members {
        if !in_range(&member.1) {
            return false;
        }
    }
    true
}
