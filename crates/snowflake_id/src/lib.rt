//! Discord's ids: a snowflake as a number, as text, its moment and its shard.
#![tactic(auto)]

ghost use Rattle.std.specs.Prelude.{◌≡◌, ◌+◌, ◌/◌, ◌%◌, ◌^◌, ◌≤◌, decimal, string_bytes, IfOk, Ok};
ghost use Rattle.std.specs.Char.{is_ascii_digit};
ghost use Rattle.std.specs.List.{list_all};
ghost use Rattle.snowflake_id.specs.Text.{id_of_text};

use std::alloc::{AllocError, Global};
use std::marker::Model;
use thiserror::Error;

/// The first millisecond of 2015, in Unix time, from which snowflakes count (API Reference,
/// Snowflakes).
pub const DISCORD_EPOCH: u64 = 1_420_070_400_000;

/// The id of a guild, a user, a channel or another resource (API Reference, Snowflakes).
///
/// From bit 22 on it holds the milliseconds since [`DISCORD_EPOCH`].
#[derive(Clone, Copy, Debug, PartialEq, Eq, PartialOrd, Ord, Hash)]
pub struct Snowflake(pub u64);

impl Model for Snowflake {
    ghost use Rattle.std.specs.Prelude.{ℕ};

    ghost Value = { ℕ };

    ghost view = { λ id. id.0 };

    ghost inverse = { λ number. record { 0 = number } };
}

/// Why a text is no snowflake. The first of these that applies is the one reported.
#[derive(Clone, Copy, Debug, PartialEq, Eq, Error)]
pub enum BadId {
    /// The text has no character.
    #[error("an id has at least one digit")]
    Empty,
    /// The text has something other than ASCII digits.
    #[error("an id has only digits")]
    NotDigits,
    /// The digits are worth 2^64 or more.
    #[error("an id is below 2^64")]
    TooLarge,
}

fn is_digits(text: &str) -> bool
    ensures { result ≡ list_all is_ascii_digit text.now }
{
    text.bytes().all(|byte| byte.is_ascii_digit())
}

impl Snowflake {
    /// Reads decimal digits below 2^64, with any number of leading zeros.
    pub fn parse(text: &str) -> Result<Snowflake, BadId>
        ensures { result ≡ id_of_text text.now }
    {
        if text.is_empty() {
            return Err(BadId::Empty);
        }
        if !is_digits(text) {
            return Err(BadId::NotDigits);
        }
        match text.parse::<u64>() {
            Ok(number) => Ok(Snowflake(number)),
            Err(_) => Err(BadId::TooLarge),
        }
    }

    /// The decimal digits, without leading zeros.
    #[tactic(auto, using(crate::proofs::Texts::id_of_decimal))]
    pub fn text(self, alloc: Global) -> Result<String, AllocError>
        ensures digits { IfOk result (λ text. string_bytes text ≡ decimal self) }
        ensures reads_back { IfOk result (λ text. id_of_text (string_bytes text) ≡ Ok self) }
    {
        self.0.to_string(alloc)
    }

    /// The moment at which the id was made, in milliseconds of Unix time (API Reference,
    /// Snowflakes).
    pub fn millis(self) -> u64
        ensures { result ≡ self / 2 ^ 22 + DISCORD_EPOCH }
    {
        (self.0 >> 22) + DISCORD_EPOCH
    }

    /// The shard, of `count` shards, that a guild with this id belongs to (Gateway, Sharding).
    pub fn shard_of(self, count: u64) -> u64
        requires { 1 ≤ count }
        ensures { result ≡ (self / 2 ^ 22) % count }
    {
        (self.0 >> 22) % count
    }
}
