//! Reads a JSON value from bytes.

ghost use Rattle.std.specs.Prelude.{◌≡◌, ◌≤◌, IfOk, IfSome, option_map};
ghost use Rattle.serde_json.specs.Data.{depth};
ghost use Rattle.serde_json.specs.Read.{max_depth};
ghost use Rattle.serde_json.specs.View.{view};
ghost use Rattle.json_view.specs.Reading.{reading};

use serde_json::Value;
use std::alloc::{AllocError, Global};

/// The JSON value of the bytes. `None` exactly if they are no JSON.
///
/// Arrays and objects may nest 127 deep.
pub fn value_of(alloc: Global, bytes: &[u8]) -> Result<Option<Value>, AllocError>
    ensures value { IfOk result (λ o. option_map view o ≡ reading bytes.now) }
    ensures nests { IfOk result (λ o. IfSome o (λ v. depth (view v) ≤ max_depth)) }
{
    match Value::from_slice(alloc, bytes) {
        Ok(value) => Ok(Some(value)),
        Err(error) => {
            if error.is_memory() {
                Err(AllocError)
            } else {
                Ok(None)
            }
        }
    }
}
