//! The connection numbers that were used.

use collections::Keyed;

/// A connection number that was used, and the worker at which it was opened.
#[derive(Clone, Copy, PartialEq, Eq, Debug)]
pub struct Opened {
    pub number: u32,
    pub worker: u8,
}

impl Keyed for Opened {
    ghost key = { λ o. o.number };

    fn key(&self) -> u64 {
        self.number as u64
    }
}
