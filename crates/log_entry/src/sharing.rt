//! Entries of a list, shared.

ghost use Rattle.std.specs.Prelude.{◌≡◌, drop, IfOk};

use crate::entry::Entry;
use std::alloc::{AllocError, Global};
use std::collections::VecDeque;

/// The same entries, with one more owner each.
///
/// # Errors
/// Out of memory, or an entry has too many owners to count.
pub fn shared(alloc: Global, entries: &[Entry]) -> Result<Vec<Entry>, AllocError>
    ensures { IfOk result (λ shared. shared.items ≡ entries.now) }
{
    let mut shared = Vec::with_capacity(alloc, entries.len())?;
    for entry in entries {
        shared.push(entry.again()?)?;
    }
    Ok(shared)
}

/// The entries from a place on, with one more owner each.
///
/// # Errors
/// Out of memory, or an entry has too many owners to count.
pub fn shared_from(
    alloc: Global,
    entries: &VecDeque<Entry>,
    from: usize,
) -> Result<Vec<Entry>, AllocError>
    ensures { IfOk result (λ shared. shared.items ≡ drop from entries.now.items) }
{
    let mut shared = Vec::new(alloc);
    for place in from..entries.len() {
        shared.push(entries[place].again()?)?;
    }
    Ok(shared)
}
