//! Lists of what belongs to guilds, in which no guild stands twice, and where each guild stands there.
#![tactic(auto)]

ghost use Rattle.std.specs.Prelude.{◌≡◌, ◌<◌, ℕ, false, length, slice_index_or, position, IfOk, MatchOption, ◌==◌};
ghost use Rattle.guild_places.specs.Places.{AreDistinct, guilds_of, has_guild};

use indexmap::IndexSet;
use snowflake_id::Snowflake;
use std::alloc::{AllocError, Global};

/// The guilds of these things, in order, which are found by their ids. No guild stands there twice.
///
/// # Errors
/// Out of memory.
pub fn index_of<T>(alloc: Global, things: &[(Snowflake, T)]) -> Result<IndexSet<u64>, AllocError>
    requires { AreDistinct (guilds_of things.now) }
    ensures { IfOk result (λ index. index.keys ≡ guilds_of things.now) }
{
    let mut index = IndexSet::with_capacity(alloc, things.len())?;
    for thing in things {
        index.insert(thing.0.0)?;
    }
    Ok(index)
}

/// The place of a guild. `None` exactly if it does not stand there. The call does not allocate.
pub fn place_of(index: &IndexSet<u64>, guild: Snowflake) -> Option<usize>
    ensures place { result ≡ position (λ g. guild == g) index.now.keys }
    ensures guild { MatchOption result (has_guild guild index.now.keys ≡ false) (λ place. (place < length index.now.keys) × ((d : ℕ) → slice_index_or index.now.keys place d ≡ guild)) }
{
    index.get_index_of(&guild.0)
}
