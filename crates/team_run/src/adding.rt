//! Items more in a list that has room for them.

ghost use Rattle.std.specs.Prelude.{◌≡◌, ◌+◌, ◌<◌, ◌≤◌, ◌∷◌, [], ◌++◌, length, map};
ghost use Rattle.std.specs.Vec.{vec_len, vec_capacity};

/// A part of one kind, which stands among the parts of all kinds of a run.
pub trait PartOf<P> {
    /// The part as one of all kinds.
    ghost among: { Self → P };

    /// The part as one of all kinds.
    fn into_part(self) -> P
        ensures { result ≡ among self };
}

/// Adds an item. It does not allocate.
pub fn add<H>(items: &mut Vec<H>, item: H)
    requires { vec_len items.old < vec_capacity items.old }
    ensures items { items.new.items ≡ items.old.items ++ item ∷ [] }
    ensures len { vec_len items.new ≡ vec_len items.old + 1 }
    ensures capacity { vec_capacity items.old ≤ vec_capacity items.new }
{
    match items.push(item) {
        Ok(()) => {}
        Err(_refused) => unreachable!(),
    }
}

/// Adds the parts of one kind, in their order. It does not allocate.
pub fn add_each<P, X: PartOf<P>>(parts: &mut Vec<P>, mut more: Vec<X>)
    requires { vec_len parts.old + length more.items ≤ vec_capacity parts.old }
    ensures items { parts.new.items ≡ parts.old.items ++ map X.among more.items }
    ensures len { vec_len parts.new ≡ vec_len parts.old + length more.items }
    ensures capacity { vec_capacity parts.old ≤ vec_capacity parts.new }
{
    more.reverse();
    while let Some(part) = more.pop() {
        add(parts, part.into_part());
    }
    more.destroy_empty();
}
