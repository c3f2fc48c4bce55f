//! The logs of two actors in the order of their guilds.

ghost use Rattle.std.specs.Prelude.{◌≡◌, IfOk};
ghost use Rattle.run_ends.specs.Lists.{woven};

use std::alloc::{AllocError, Global};

/// The items of two lists in turn.
pub fn weave<T: Drop>(
    alloc: Global,
    mut first: Vec<T>,
    mut second: Vec<T>,
) -> Result<Vec<T>, AllocError>
    ensures { IfOk result (λ all. all.items ≡ woven first.items second.items) }
{
    let mut all = Vec::with_capacity(alloc, first.len() + second.len())?;
    first.reverse();
    second.reverse();
    while let Some(item) = first.pop() {
        all.push(item)?;
        if let Some(other) = second.pop() {
            all.push(other)?;
        }
    }
    while let Some(other) = second.pop() {
        all.push(other)?;
    }
    Ok(all)
}
