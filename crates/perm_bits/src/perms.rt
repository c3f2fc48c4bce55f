//! A set of permissions, and how it is made from its number.

ghost use Rattle.std.specs.Prelude.{◌≡◌, ◌-◌, ◌<◌, ◌≤◌, ◌^◌, ◌↔◌, ℕ, ◌||◌, ◌&&◌, not, Some, codes, IsTrue, IsErr, IfOk};
ghost use Rattle.std.specs.Fmt.{decimal};
ghost use Rattle.perm_bits.specs.Bits.{has_bit};

use std::error::Error;
use std::fmt;
use std::marker::Model;

/// A set of permissions, which a clause sees as its number, below 2^53 (Permissions, Bitwise
/// Permission Flags). A bit that no permission names is carried like any other.
#[derive(Clone, Copy, PartialEq, Eq, Debug)]
pub struct Perms(pub(crate) u64);

impl Model for Perms {
    ghost use Rattle.std.specs.Prelude.{ℕ, ◌<◌, ◌^◌};

    ghost Value = { ℕ };

    ghost view = { λ p. p.0 };

    ghost invariant = { λ p. p.0 < 2 ^ 53 };

    ghost inverse = { λ mask. record { 0 = mask } };
}

/// The number has a bit from 53 on.
#[derive(Clone, Copy, PartialEq, Eq, Debug)]
pub struct BadMask;

impl fmt::Display for BadMask {
    ghost output = { λ _. Some (codes "a permission number of 2^53 or more") };

    fn fmt<W: fmt::Write>(&self, f: &mut fmt::Formatter<W>) -> fmt::Result {
        write!(f, "a permission number of 2^53 or more")
    }
}

impl Error for BadMask {}

/// Written in decimal, as permissions are in objects.
impl fmt::Display for Perms {
    ghost output = { λ p. Some (decimal p) };

    fn fmt<W: fmt::Write>(&self, f: &mut fmt::Formatter<W>) -> fmt::Result {
        write!(f, "{}", self.0)
    }
}

impl Perms {
    /// No permission.
    pub const NONE: Perms = Perms(0);

    /// All 53 bits, whether or not a permission names them.
    pub const ALL: Perms = Perms((1 << 53) - 1);

    /// The set of this number; `BadMask` exactly for a number of 2^53 or more.
    pub fn of_mask(mask: u64) -> Result<Perms, BadMask>
        ensures value { IfOk result (λ perms. perms ≡ mask) }
        ensures refused { IsErr result ↔ (2 ^ 53 ≤ mask) }
    {
        if mask >> 53 == 0 {
            Ok(Perms(mask))
        } else {
            Err(BadMask)
        }
    }

    /// The number of this set, as it is written in decimal in a role or an overwrite.
    pub fn mask(self) -> u64
        ensures value { result ≡ self }
        ensures within { result < 2 ^ 53 }
    {
        self.0
    }

    /// Whether this has every one of these permissions. For a named one that is its bit.
    pub fn has(self, bits: Perms) -> bool
        ensures every { IsTrue result ↔ ((b : ℕ) → IsTrue (has_bit bits b) → IsTrue (has_bit self b)) }
        ensures one { (b : ℕ) → bits ≡ 2 ^ b → result ≡ has_bit self b }
    {
        self.0 & bits.0 == bits.0
    }

    /// The permissions that either has.
    pub fn union(self, other: Perms) -> Perms
        ensures { (b : ℕ) → has_bit result b ≡ (has_bit self b || has_bit other b) }
    {
        Perms(self.0 | other.0)
    }

    /// The permissions of this that the other does not have.
    pub fn without(self, other: Perms) -> Perms
        ensures { (b : ℕ) → has_bit result b ≡ (has_bit self b && not (has_bit other b)) }
    {
        Perms(self.0 & !other.0)
    }
}
