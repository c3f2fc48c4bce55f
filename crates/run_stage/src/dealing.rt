//! Dealing the items of lists in turn.

ghost use Rattle.std.specs.Prelude.{◌≡◌, ◌<◌, [], ◌∷◌, ◌++◌, length, map, take, drop, IfOk, OnOk};
ghost use Rattle.run_stage.specs.Dealing.{evens, odds, paired};

use std::alloc::{AllocError, Global};
use std::collections::VecDeque;

/// Takes the first of the items that are left. It does not allocate.
pub fn take_next<X>(items: &mut VecDeque<X>) -> X
    requires { 0 < length items.old.items }
    ensures { items.old.items ≡ result ∷ items.new.items }
{
    items.pop_front().unwrap()
}

// Moves the first of the items, if there is one, to the end of a list. On an `Err` it is dropped.
fn move_next<X: Drop>(items: &mut VecDeque<X>, to: &mut Vec<X>) -> Result<(), AllocError>
    ensures { OnOk result ((to.new.items ≡ to.old.items ++ take 1 items.old.items) × (items.new.items ≡ drop 1 items.old.items)) }
{
    if let Some(item) = items.pop_front() {
        to.push(item)?;
    }
    Ok(())
}

/// Deals items to two lists in turn, the first item to the first list.
///
/// # Errors
/// Out of memory.
pub fn deal_in_two<X: Drop>(alloc: Global, items: Vec<X>) -> Result<(Vec<X>, Vec<X>), AllocError>
    ensures { IfOk result (λ r. (r.0.items ≡ evens items.items) × (r.1.items ≡ odds items.items)) }
{
    let mut left = VecDeque::from(items);
    let mut first = Vec::new(alloc);
    let mut second = Vec::new(alloc);
    while !left.is_empty() {
        move_next(&mut left, &mut first)?;
        move_next(&mut left, &mut second)?;
    }
    Ok((first, second))
}

// A list of two items.
fn pair<X: Drop>(alloc: Global, first: X, second: X) -> Result<Vec<X>, AllocError>
    ensures { IfOk result (λ pair. pair.items ≡ first ∷ second ∷ []) }
{
    let mut pair = Vec::new(alloc);
    pair.push(first)?;
    pair.push(second)?;
    Ok(pair)
}

/// The items of two lists that are as long, as a list of pairs.
///
/// # Errors
/// Out of memory.
pub(crate) fn pairs<X: Drop>(
    alloc: Global,
    first: Vec<X>,
    second: Vec<X>,
) -> Result<VecDeque<Vec<X>>, AllocError>
    requires { length second.items ≡ length first.items }
    ensures { IfOk result (λ pairs. map (λ pair. pair.items) pairs.items ≡ paired first.items second.items) }
{
    let mut firsts = VecDeque::from(first);
    let mut seconds = VecDeque::from(second);
    let mut pairs = VecDeque::new(alloc);
    while let Some(item) = firsts.pop_front() {
        let other = take_next(&mut seconds);
        pairs.push_back(pair(alloc, item, other)?)?;
    }
    Ok(pairs)
}
