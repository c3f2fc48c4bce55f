//! Whether a viewer is served by a guild.

ghost use Rattle.std.specs.Prelude.{◌≡◌};
ghost use Rattle.std.specs.Option.{option_copied};
ghost use Rattle.dispatch_types.specs.Serves.{in_shard, served, serves};

use crate::viewer::Viewer;
use guild_model::{Guild, Member};

// Whether a guild is of the viewer's shard.
fn in_shard(guild: &Guild, viewer: &Viewer) -> bool
    ensures { result ≡ in_shard viewer.now.shard guild.now.id }
{
    match viewer.shard {
        Some(shard) => shard.has_guild(guild.id),
        None => true,
    }
}

/// The viewer's own member. `None` exactly if the viewer is not served: where the guild is not
/// open or not of its shard (Gateway, Sharding), or the user is no member.
pub fn served<'a>(guild: &'a Guild, viewer: &Viewer) -> Option<&'a Member>
    ensures { option_copied result ≡ served viewer.now guild.now }
{
    if guild.opened && in_shard(guild, viewer) {
        guild.member(viewer.user)
    } else {
        None
    }
}

/// Whether a viewer is served a guild. Does not allocate.
pub fn serves(guild: &Guild, viewer: &Viewer) -> bool
    ensures { result ≡ serves viewer.now guild.now }
{
    served(guild, viewer).is_some()
}
