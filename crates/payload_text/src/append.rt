//! Adds texts to bytes, all or none.

ghost use Rattle.std.specs.Prelude.{◌≡◌, ◌++◌, flat_map, is_ok, if◌then◌else◌};

use std::alloc::AllocError;

/// Adds texts to bytes, one after another. An `Err` leaves the bytes as they were.
#[inline(always)]
pub fn append_all(out: &mut Vec<u8>, texts: &[&str]) -> Result<(), AllocError>
    ensures { out.new.items ≡ (if is_ok result then out.old.items ++ flat_map (λ text. text.now) texts.now else out.old.items) }
{
    let before = out.len();
    for &text in texts {
        if let Err(error) = out.extend_from_slice(text.as_bytes()) {
            out.truncate(before);
            return Err(error);
        }
    }
    Ok(())
}
