//! What the parts of a load are made from.

ghost use Rattle.std.specs.Prelude.{IfOk};
ghost use Rattle.run_stage.specs.Hubs.{HasHubs};
ghost use Rattle.load_stage.specs.Drafts.{IsSupply};
ghost use Rattle.load_stage.specs.Guilds.{guild_ids};

use crate::doors::{Doors, open_doors};
use crate::workers::Served;
use edit_post::{SendPass, TakePass};
use guild_hub::HubWriter;
use load_client::NameGoal;
use run_stage::{Ground, Hubs, open_hubs, open_posts};
use snowflake_id::Snowflake;
use std::alloc::{AllocError, Global};
use std::collections::VecDeque;
use std::sync::Wait;
use thread_outside::door_dial::DoorDial;

/// How many senders each post has: the scripts and then the workers.
const SENDERS: u8 = 7;

/// How many workers read each hub.
const READERS: u8 = 3;

/// What the parts of a load are made from: of both actors their passes and the writers of all hubs, of each
/// sender its passes, of the workers what they alone have, and of each client its dial.
#[derive(Drop)]
pub(crate) struct Supply<R: Wait + Copy + Drop> {
    pub takers: (TakePass, TakePass),
    pub writers: Vec<(Snowflake, HubWriter<R>)>,
    pub passes: VecDeque<Vec<SendPass>>,
    pub served: Served<R>,
    pub dials: VecDeque<DoorDial<R>>,
}

// The hubs of all guilds of a load, each with a reader for each worker.
fn guild_hubs<R: Wait + Copy + Drop>(rt: R, alloc: Global) -> Result<Hubs<R>, AllocError>
    ensures { IfOk result (λ hubs. HasHubs guild_ids 3 hubs.writers.items hubs.readers.items) }
{
    let goal = NameGoal::of_load(alloc)?;
    let hubs = open_hubs(rt, alloc, goal.guilds.as_slice(), READERS)?;
    Ok(hubs)
}

/// Opens the posts, the hubs and the doors of a load, and gives what its parts share besides.
///
/// # Errors
/// Out of memory, or a place at a hub that could not be had.
pub(crate) fn open_all<R: Wait + Copy + Drop>(
    rt: R,
    alloc: Global,
) -> Result<(Ground<R>, Supply<R>), AllocError>
    ensures { IfOk result (λ r. IsSupply r.0.posts r.1) }
{
    let opened = open_posts(rt, alloc, SENDERS)?;
    let hubs = guild_hubs(rt, alloc)?;
    let Doors { doors, dials } = open_doors(rt, alloc)?;
    let (posts, takers, passes) = opened.into_parts();
    let (writers, readers) = hubs.into_parts();
    let ground = Ground::new(rt, alloc, posts)?;
    let supply = Supply {
        takers,
        writers,
        passes,
        served: Served { doors, readers },
        dials,
    };
    Ok((ground, supply))
}
