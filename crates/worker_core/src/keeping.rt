//! Which masks a worker keeps: those of each user who has a session.

ghost use Rattle.std.specs.Prelude.{◌≡◌, ◌<◌, ◌++◌, ◌∷◌, List, length, map, OnOk};
ghost use Rattle.collections.specs.ById.{IsById};
ghost use Rattle.guild_replica.specs.Replicas.{GuildCopy};
ghost use Rattle.worker_core.specs.InCode.{bare, replica_id};
ghost use Rattle.worker_core.specs.Masks.{AllKeep, has_kept_session, is_served};

use collections::ById;
use dispatch_types::{Viewer, serves};
use guild_model::Guild;
use guild_replica::Replica;
use session_core::Sessions;
use snowflake_id::Snowflake;
use std::alloc::{AllocError, Global};

// Whether a viewer is of a user and served a guild.
fn is_served(guild: &Guild, user: Snowflake, viewer: &Viewer) -> bool
    ensures { result ≡ is_served guild.now user viewer.now }
{
    viewer.user == user && serves(guild, viewer)
}

/// Whether a session of a user is served a guild.
pub fn has_session(sessions: &Sessions, user: Snowflake, guild: &Guild) -> bool
    ensures { result ≡ has_kept_session sessions.now.sessions user guild.now }
{
    for index in 0..sessions.len() {
        let Some(viewer) = sessions.viewer_at(index) else {
            return false;
        };
        if is_served(guild, user, viewer) {
            return true;
        }
    }
    false
}

// Keeps the masks of these users with the copy at a place.
fn keep_at(
    alloc: Global,
    replicas: &mut ById<Replica>,
    place: usize,
    users: &[Snowflake],
) -> Result<(), AllocError>
    requires { place < length replicas.old }
    ensures ascend { IsById replica_id replicas.old }
    ensures keeps { (front back : List GuildCopy) (r : GuildCopy) → replicas.old ≡ front ++ r ∷ back → length front ≡ place
        → OnOk result (replicas.new ≡ front ++ record r { users = users.now } ∷ back) }
{
    let replica = &replicas.as_slice()[place];
    if replica.users() == users {
        return Ok(());
    }
    let empty = Guild::closed(alloc, replica.guild().id);
    let mut replica = replicas.exchange(Replica::new(alloc, empty));
    replica.keep_masks(alloc, users)?;
    replicas.replace(replica);
    Ok(())
}

/// Keeps the masks of these users with each copy.
pub fn keep_each(
    alloc: Global,
    replicas: &mut ById<Replica>,
    users: &[Snowflake],
) -> Result<(), AllocError>
    ensures bare { OnOk result (map bare replicas.new ≡ map bare replicas.old) }
    ensures kept { OnOk result (AllKeep users.now replicas.new) }
{
    for place in 0..replicas.len() {
        keep_at(alloc, replicas, place, users)?;
    }
    Ok(())
}
