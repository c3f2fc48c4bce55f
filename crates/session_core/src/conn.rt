//! A connection's number, as a key.

use collections::Keyed;
use std::marker::Model;

/// A connection, seen as its number.
#[derive(Clone, Copy, PartialEq, Eq, Debug)]
pub struct Conn(pub u32);

impl Model for Conn {
    ghost use Rattle.std.specs.Prelude.{ℕ};

    ghost Value = { ℕ };

    ghost view = { λ conn. conn.0 };

    ghost inverse = { λ number. record { 0 = number } };
}

impl Keyed for Conn {
    ghost key = { λ conn. conn };

    fn key(&self) -> u64 {
        self.0 as u64
    }
}
