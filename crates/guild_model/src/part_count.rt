//! The number of embeds, attachments or components of a message.

ghost use Rattle.std.specs.Prelude.{◌≡◌, ◌↔◌, ◌≤◌, IfOk, IsErr};

use crate::limits;
use std::marker::Model;

/// How many embeds, attachments or components a message has, of each at most [`limits::PARTS`].
#[derive(Clone, Copy, PartialEq, Eq, Debug)]
pub struct PartCount(u8);

impl Model for PartCount {
    ghost use Rattle.std.specs.Prelude.{ℕ, ◌≤◌};

    ghost Value = { ℕ };

    ghost view = { λ c. c.0 };

    ghost invariant = { λ c. c.0 ≤ 10 };

    ghost inverse = { λ count. record { 0 = count } };
}

/// There are too many parts.
#[derive(Clone, Copy, PartialEq, Eq, Debug)]
pub struct TooManyParts;

impl PartCount {
    /// No parts.
    pub const NONE: PartCount = PartCount(0);

    /// That many parts; refused exactly above 10.
    pub fn new(count: usize) -> Result<PartCount, TooManyParts>
        ensures value { IfOk result (λ c. c ≡ count) }
        ensures refused { IsErr result ↔ (11 ≤ count) }
    {
        if count > limits::PARTS as usize {
            return Err(TooManyParts);
        }
        Ok(PartCount(count as u8))
    }

    /// The number, at most 10.
    pub fn get(self) -> u8
        ensures value { result ≡ self }
        ensures within { result ≤ 10 }
    {
        self.0
    }
}
