//! Permission sets as flags of `bitflags`.

ghost use Rattle.std.specs.Prelude.{⊤, []};

use crate::perms::Perms;
use bitflags::{Flag, Flags};

// A set is its own storage, so that no number of 2^53 or more becomes one by `from_bits_retain`. No
// static may hold a value with an invariant, so the trait names no flag: the names are the constants.
impl Flags for Perms {
    type Bits = Perms;

    ghost exact = { ⊤ };

    ghost table = { [] };

    ghost set_of = { λ p. p };

    fn flags<'a>() -> &'a [Flag<Perms>] {
        &[]
    }

    fn bits(&self) -> Perms {
        *self
    }

    fn from_bits_retain(bits: Perms) -> Perms {
        bits
    }
}
