//! Who is sent dispatches: a bot with its intents, its shard and its threshold.

ghost use Rattle.std.specs.Prelude.{◌≡◌, ◌↔◌, ◌==◌, IfOk, IsErr};

use intent_set::Intents;
use snowflake_id::Snowflake;
use std::marker::Model;

/// One of several shards of a bot (Gateway, Sharding): its place, and how many there are, at least
/// one.
#[derive(Clone, Copy, PartialEq, Eq, Debug)]
pub struct Shard {
    id: u64,
    count: u64,
}

impl Model for Shard {
    ghost use Rattle.std.specs.Prelude.{ℕ, ◌≤◌};

    ghost Value = { ℕ × ℕ };

    ghost view = { λ s. (s.id, s.count) };

    ghost invariant = { λ s. 1 ≤ s.count };

    ghost inverse = { λ pair. record { id = pair.0; count = pair.1 } };
}

/// A shard of none.
#[derive(Clone, Copy, PartialEq, Eq, Debug)]
pub struct BadShard;

impl Shard {
    /// Shard `id` of `count`; refused exactly if there are none.
    pub fn new(id: u64, count: u64) -> Result<Shard, BadShard>
        ensures value { IfOk result (λ s. s ≡ (id, count)) }
        ensures refused { IsErr result ↔ (count ≡ 0) }
    {
        if count == 0 {
            return Err(BadShard);
        }
        Ok(Shard { id, count })
    }

    /// The shard's index, from 0.
    pub fn id(self) -> u64
        ensures { result ≡ self.0 }
    {
        self.id
    }

    /// How many shards there are.
    pub fn count(self) -> u64
        ensures { result ≡ self.1 }
    {
        self.count
    }

    ghost use Rattle.dispatch_types.specs.Serves.{has_guild};

    /// Whether a guild belongs to this shard.
    pub fn has_guild(self, guild: Snowflake) -> bool
        ensures { result ≡ has_guild self guild }
    {
        guild.shard_of(self.count) == self.id
    }
}

/// Whom dispatches are for: a bot, what it asks for, and the member count above which a guild is
/// large to it (Gateway Events, Identify).
#[derive(Clone, Copy, PartialEq, Eq, Debug)]
pub struct Viewer {
    pub user: Snowflake,
    pub intents: Intents,
    pub shard: Option<Shard>,
    pub threshold: u16,
}
