//! What a client waits for.

ghost use Rattle.std.specs.Prelude.{◌≡◌, map, IfOk};
ghost use Rattle.std.specs.List.{range_with_len};
ghost use Rattle.std.specs.Option.{option_copied};
ghost use Rattle.load_maker.specs.Edits.{guild_id};
ghost use Rattle.load_client.specs.Names.{is_named, all_named, load_goal};

use client_cache::Cache;
use collections::{Seq, Text};
use dispatch_types::GuildView;
use snowflake_id::Snowflake;
use std::alloc::{AllocError, Global};

/// How many guilds a load has.
const GUILDS: u64 = 8;

/// How far apart the ids of a load's guilds are.
const ID_STEP: u64 = 4_194_304;

/// The name that each guild of a load has at last.
const LAST_NAME: &str = "end";

/// What a client waits for: that it holds each of these guilds with this name.
pub struct NameGoal {
    /// The ids of the guilds.
    pub guilds: Seq<Snowflake>,
    /// The name.
    pub name: Text,
}

impl Drop for NameGoal {
    fn drop(self) {
        let NameGoal { guilds, name } = self;
        drop(guilds);
        drop(name);
    }
}

// Whether a view is open with this name.
fn is_named(view: Option<&GuildView>, name: &Text) -> bool
    ensures { result ≡ is_named name.now (option_copied view.entry) }
{
    match view {
        Some(GuildView::Open(view)) => view.name.is(name.as_str()),
        Some(GuildView::Unavailable) => false,
        None => false,
    }
}

// The ids of the guilds of a load, ascending.
fn guilds(alloc: Global) -> Result<Seq<Snowflake>, AllocError>
    ensures { IfOk result (λ guilds. guilds ≡ map guild_id (range_with_len 1 8)) }
{
    let mut guilds = Seq::new(alloc);
    for before in 0..GUILDS {
        guilds.push(Snowflake((before + 1) * ID_STEP))?;
    }
    Ok(guilds)
}

impl NameGoal {
    /// All guilds of a load, and the name that each has at last.
    ///
    /// # Errors
    /// Out of memory.
    pub fn of_load(alloc: Global) -> Result<NameGoal, AllocError>
        ensures { IfOk result (λ goal. goal ≡ load_goal) }
    {
        Ok(NameGoal {
            guilds: guilds(alloc)?,
            name: Text::new(alloc, LAST_NAME)?,
        })
    }

    /// Whether a client's cache has an open view with the name of each guild. It does not allocate, and
    /// looks no further than at the first guild without such a view.
    pub fn is_met(&self, cache: &Cache) -> bool
        ensures { result ≡ all_named self.now.guilds self.now.name cache.now }
    {
        let guilds = self.guilds.as_slice();
        guilds
            .iter()
            .all(|guild| is_named(cache.view(*guild), &self.name))
    }
}
