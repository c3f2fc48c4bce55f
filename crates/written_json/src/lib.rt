//! Values and the compact texts that are written for them.
#![tactic(auto)]

ghost use Rattle.std.specs.Prelude.{◌≡◌, ◌≢◌, ◌≤◌, true, false, IfOk};
ghost use Rattle.serde_json.specs.Data.{Data, depth};
ghost use Rattle.serde_json.specs.Read.{max_depth};
ghost use Rattle.serde_json.specs.View.{view};
ghost use Rattle.serde_json.specs.Written.{compact_text};
ghost use Rattle.written_json.specs.Writable.{IsWritable};

use serde_json::Value;
use std::alloc::{AllocError, Global};

/// Whether a value is the one for which a compact text was written.
pub fn is_written_as(alloc: Global, value: &Value, text: &str) -> Result<bool, AllocError>
    requires { depth (view value.now) ≤ max_depth }
    ensures yes { (d : Data) → IsWritable d → text.now ≡ compact_text d → IfOk result (λ same. same ≡ true → view value.now ≡ d) }
    ensures no { (d : Data) → IsWritable d → text.now ≡ compact_text d → IfOk result (λ same. same ≡ false → view value.now ≢ d) }
{
    let found = value.to_string(alloc)?;
    Ok(found.as_str() == text)
}
