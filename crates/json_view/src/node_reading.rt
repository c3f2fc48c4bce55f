//! Reads a JSON value that borrows from its text.

ghost use Rattle.std.specs.Prelude.{◌≡◌, IfOk, option_map};
ghost use Rattle.serde_json.specs.Read.{read};
ghost use Rattle.json_view.specs.Reading.{reading};
ghost use Rattle.json_view.specs.Nodes.{view};

use crate::range::in_range;
use json::{Error, Reader, Scratch, Value};
use std::alloc::{AllocError, Global};

const MAX_DEPTH: usize = 127;

#[tactic(auto, using(crate::proofs::NodeReadings::read_more))]
fn document_of<'t>(
    alloc: Global,
    text: &'t str,
    scratch: &'t mut Scratch,
) -> Result<Option<Value<'t>>, AllocError>
    ensures { IfOk result (λ o. option_map view o ≡ read text.now) }
{
    let mut reader = Reader::new(text, scratch)?;
    let value = match Value::read(alloc, &mut reader, MAX_DEPTH) {
        Ok(value) => value,
        Err(Error::OutOfMemory) => return Err(AllocError),
        Err(_) => return Ok(None),
    };
    if reader.next().is_some() {
        return Ok(None);
    }
    if in_range(&value) {
        Ok(Some(value))
    } else {
        Ok(None)
    }
}

/// The JSON value of the bytes. `None` exactly if they are no JSON.
///
/// Arrays and objects may nest 127 deep. Strings that have an escape are written to the scratch,
/// which grows to the longest text.
#[tactic(auto, using(crate::proofs::NodeReadings::of_text, crate::proofs::NodeReadings::of_no_text))]
pub fn node_of<'t>(
    alloc: Global,
    bytes: &'t [u8],
    scratch: &'t mut Scratch,
) -> Result<Option<Value<'t>>, AllocError>
    ensures { IfOk result (λ o. option_map view o ≡ reading bytes.now) }
{
    match simdutf8::basic::from_utf8(bytes) {
        Ok(text) => document_of(alloc, text, scratch),
        Err(_) => Ok(None),
    }
}
