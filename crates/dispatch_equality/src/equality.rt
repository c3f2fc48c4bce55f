//! Equality as a trait, for a text and for a value that may be missing.

ghost use Rattle.std.specs.Prelude.{◌≡◌, ◌↔◌, IsTrue};

use collections::Text;

/// What can be compared with another of its type, each part of it with the other's.
pub trait SameAs {
    /// Whether two values are equal. Does not allocate.
    fn same_as(&self, other: &Self) -> bool
        ensures { IsTrue result ↔ (self.now ≡ other.now) };
}

impl SameAs for Text {
    fn same_as(&self, other: &Text) -> bool {
        self.is(other.as_str())
    }
}

impl<T: SameAs> SameAs for Option<T> {
    fn same_as(&self, other: &Option<T>) -> bool {
        match (self, other) {
            (Some(one), Some(other)) => one.same_as(other),
            (None, None) => true,
            _ => false,
        }
    }
}
