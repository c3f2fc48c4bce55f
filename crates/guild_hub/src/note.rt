//! What a hub's log was at some moment, at least. Notes of one hub can be compared.

ghost use Rattle.std.specs.Prelude.{◌≡◌, ◌⊎◌, ◌+◌, length, MatchBool};
ghost use Rattle.guild_hub.specs.Logs.{GoesOn, base_of};
ghost use Rattle.guild_hub.specs.Items.{seals};

use crate::item::Item;
use crate::shown::KEPT;
use logbook::{Rule, Seen};
use snowflake_id::Snowflake;
use std::marker::Model;

/// The rule of a hub's history: nothing follows the seal.
pub struct History;

impl Rule<Item, u64> for History {
    ghost use Rattle.std.specs.Prelude.{[]};
    ghost use base.Fml.{ftrue};
    ghost use Rattle.guild_hub.specs.Books.{IsCounted};
    ghost use Rattle.guild_hub.specs.Items.{IsFinal};

    ghost holds = { λ cells log. IsCounted IsFinal cells log };

    ghost first = { [] };

    ghost hinted = { λ n log. Unit {0} };

    ghost shows = { λ log. [] };

    ghost keeps = { λ names log. ftrue };

    ghost moves = { λ ask before after answer. Unit {0} };
}

/// A hub's log as it was published at some moment. It takes no room but that of three numbers, and a
/// clause sees the log.
pub struct Note {
    pub(crate) seen: Seen<Item, u64, History>,
    pub(crate) guild: Snowflake,
    pub(crate) len: u64,
    pub(crate) sealed: bool,
}

impl Drop for Note {
    fn drop(self) {
        let Note {
            seen,
            guild: _,
            len: _,
            sealed: _,
        } = self;
        drop(seen);
    }
}

impl Model for Note {
    ghost use Rattle.std.specs.Prelude.{◌≡◌, length};
    ghost use Rattle.guild_hub.specs.Logs.{Published};
    ghost use Rattle.guild_hub.specs.Items.{log_of, IsFinal, edits_of, has_seal};

    ghost Value = { Published };

    ghost view = { λ n. log_of n.guild n.seen.book n.seen.log };

    ghost invariant = { λ n. IsFinal n.seen.log × (n.len ≡ length (edits_of n.seen.log)) × (n.sealed ≡ has_seal n.seen.log) };
}

impl Note {
    /// The number of entries.
    pub fn len(&self) -> u64
        ensures { result ≡ length self.now.entries }
    {
        self.len
    }

    /// Whether the log has its seal.
    pub fn is_sealed(&self) -> bool
        ensures { result ≡ self.now.sealed }
    {
        self.sealed
    }

    /// The same note.
    pub fn again(&self) -> Note
        ensures { result ≡ self.now }
    {
        Note {
            seen: self.seen.again(),
            guild: self.guild,
            len: self.len,
            sealed: self.sealed,
        }
    }

    /// How many entries are no longer kept.
    pub fn base(&self) -> u64
        ensures { result ≡ base_of self.now }
    {
        self.len.saturating_sub(KEPT as u64)
    }

    // The number of items in the history: the entries, and the seal.
    fn items(&self) -> u128
        ensures { result ≡ length self.now.entries + seals self.now.sealed }
    {
        let seals = if self.sealed { 1 } else { 0 };
        u128::from(self.len) + seals
    }

    /// Whether this is the note of no later moment than another of the same hub.
    pub fn is_within(&self, other: &Note) -> bool
        requires { self.now.hub ≡ other.now.hub }
        ensures { MatchBool result (GoesOn self.now other.now) (GoesOn other.now self.now) }
    {
        let mut both = self.seen.again();
        both.learn(&other.seen);
        if self.items() <= other.items() {
            return true;
        }
        false
    }

    /// Of two notes of one hub the one of the later moment.
    pub fn later(&self, other: &Note) -> Note
        requires { self.now.hub ≡ other.now.hub }
        ensures one { (result ≡ self.now) ⊎ (result ≡ other.now) }
        ensures this { GoesOn self.now result }
        ensures that { GoesOn other.now result }
    {
        if self.is_within(other) {
            other.again()
        } else {
            self.again()
        }
    }
}
