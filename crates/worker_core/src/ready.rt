//! READY and the guilds that follow it (Gateway Events, Ready and Guild Create).

ghost use Rattle.std.specs.Prelude.{◌≡◌, ◌++◌, [], map, filter, flat_map, if◌then◌else◌, IfOk, OnOk};
ghost use Rattle.perm_bits.specs.Bits.{has_bit};
ghost use Rattle.intent_set.specs.Intents.{guilds};
ghost use Rattle.dispatch_types.specs.Serves.{serves};
ghost use Rattle.world_law.specs.Greeting.{greeting_of};
ghost use Rattle.worker_core.specs.InCode.{replica_id};

use collections::Seq;
use dispatch_types::{Dispatch, Viewer, served, serves};
use edit_events::greeting;
use guild_replica::Replica;
use intent_set::Intents;
use snowflake_id::Snowflake;
use std::alloc::{AllocError, Global};

/// The guilds that READY lists.
pub fn ready_guilds(
    alloc: Global,
    replicas: &[Replica],
    viewer: &Viewer,
) -> Result<Seq<Snowflake>, AllocError>
    ensures { IfOk result (λ ids. ids ≡ (if has_bit viewer.now.intents guilds then map replica_id (filter (λ r. serves viewer.now r.guild) replicas.now) else [])) }
{
    let mut ids = Seq::new(alloc);
    if !viewer.intents.has(Intents::GUILDS) {
        return Ok(ids);
    }
    for replica in replicas {
        let guild = replica.guild();
        if serves(guild, viewer) {
            ids.push(guild.id)?;
        }
    }
    Ok(ids)
}

/// Adds GUILD_CREATE of each guild that the viewer is served and that is available, in order.
pub fn guild_creates(
    alloc: Global,
    replicas: &[Replica],
    viewer: &Viewer,
    list: &mut Vec<Dispatch>,
) -> Result<(), AllocError>
    ensures { OnOk result (list.new.items ≡ list.old.items ++ flat_map (λ r. greeting_of viewer.now r.guild) replicas.now) }
{
    if !viewer.intents.has(Intents::GUILDS) {
        return Ok(());
    }
    for replica in replicas {
        let guild = replica.guild();
        let Some(me) = served(guild, viewer) else {
            continue;
        };
        if !guild.outage {
            let create = greeting(alloc, guild, viewer, me)?;
            list.push(Dispatch::GuildCreate(create))?;
        }
    }
    Ok(())
}
