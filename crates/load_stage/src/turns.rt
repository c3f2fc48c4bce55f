//! The items of three lists in turn.

ghost use Rattle.std.specs.Prelude.{◌≡◌, length, IfOk};
ghost use Rattle.load_stage.specs.Turns.{in_turn};

use run_stage::take_next;
use std::alloc::{AllocError, Global};
use std::collections::VecDeque;

/// The items of three lists that are as long, in turn.
///
/// # Errors
/// Out of memory.
pub(crate) fn in_turn<X: Drop>(
    alloc: Global,
    first: Vec<X>,
    second: Vec<X>,
    third: Vec<X>,
) -> Result<VecDeque<X>, AllocError>
    requires { (length second.items ≡ length first.items) × (length third.items ≡ length first.items) }
    ensures { IfOk result (λ items. items.items ≡ in_turn first.items second.items third.items) }
{
    let mut firsts = VecDeque::from(first);
    let mut seconds = VecDeque::from(second);
    let mut thirds = VecDeque::from(third);
    let mut items = VecDeque::new(alloc);
    while let Some(item) = firsts.pop_front() {
        items.push_back(item)?;
        items.push_back(take_next(&mut seconds))?;
        items.push_back(take_next(&mut thirds))?;
    }
    Ok(items)
}
