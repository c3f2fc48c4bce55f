//! Writes a JSON object from its fields.

ghost use Rattle.std.specs.Prelude.{◌≡◌, All, IfOk, IsTrue, OnOk, string_bytes, false};
ghost use Rattle.serde_json.specs.Data.{object, put};
ghost use Rattle.serde_json.specs.View.{view, members_view};
ghost use Rattle.serde_json.specs.Written.{compact_text, has_float};
ghost use Rattle.json_view.specs.Object.{distinct_keys, members_from, KeysAscend};

use serde_json::{Map, Value};
use std::alloc::{AllocError, Global};

fn put_field(members: &mut Map<String, Value>, name: String, value: Value) -> Result<(), AllocError>
    ensures { OnOk result (members_view members.new.entries ≡ put (string_bytes name) (view value) (members_view members.old.entries)) }
{
    let _replaced = members.insert(name, value)?;
    Ok(())
}

#[tactic(auto, using(crate::proofs::Objects::with_last))]
fn object_of(alloc: Global, fields: Vec<(String, Value)>) -> Result<Value, AllocError>
    ensures { IfOk result (λ value. view value ≡ object (members_from fields.items)) }
{
    let mut members = Map::new(alloc);
    for (name, value) in fields {
        put_field(&mut members, name, value)?;
    }
    Ok(Value::Object(members))
}

/// The text of the object of these fields, without spaces and with its keys in byte order.
#[tactic(auto, using(crate::proofs::Objects::ascend_from))]
pub fn write_object(alloc: Global, fields: Vec<(String, Value)>) -> Result<String, AllocError>
    requires distinct { IsTrue (distinct_keys fields.items) }
    requires no_floats { All (λ f. has_float (view f.1) ≡ false) fields.items }
    ensures text { IfOk result (λ text. string_bytes text ≡ compact_text (object (members_from fields.items))) }
    ensures order { KeysAscend (members_from fields.items) }
{
    let object = object_of(alloc, fields)?;
    object.to_string(alloc)
}
