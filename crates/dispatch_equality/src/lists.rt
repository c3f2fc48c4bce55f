//! Lists, item by item.

ghost use Rattle.std.specs.Prelude.{◌≡◌, ◌↔◌, IsTrue};

use crate::equality::SameAs;
use collections::{ById, Keyed, Seq};

/// Whether two lists have equal items in the same order. Does not allocate.
pub fn same_items<T: SameAs>(one: &[T], other: &[T]) -> bool
    ensures { IsTrue result ↔ (one.now ≡ other.now) }
{
    if one.len() != other.len() {
        return false;
    }
    for (item, beside) in one.iter().zip(other) {
        if !item.same_as(beside) {
            return false;
        }
    }
    true
}

impl<T: SameAs + Drop> SameAs for Seq<T> {
    fn same_as(&self, other: &Seq<T>) -> bool {
        same_items(self.as_slice(), other.as_slice())
    }
}

impl<T: SameAs + Keyed + Drop> SameAs for ById<T> {
    fn same_as(&self, other: &ById<T>) -> bool {
        same_items(self.as_slice(), other.as_slice())
    }
}
