//! What the parts of a run are made from.

ghost use Rattle.std.specs.Prelude.{◌≤◌, ◌<◌, ◌+◌, length, IfOk};
ghost use Rattle.serve_stage.specs.Drafts.{IsSupply};

use edit_post::{SendPass, TakePass};
use guild_hub::{HubReader, HubWriter};
use run_stage::{Ground, Seats, open_hubs, open_posts};
use snowflake_id::Snowflake;
use std::alloc::{AllocError, Global};
use std::collections::VecDeque;
use std::sync::Wait;
use stop_flag::{StopFlag, StopSeat};

/// How many scripts and workers a run has.
#[derive(Clone, Copy)]
pub(crate) struct Counts {
    pub scripts: u8,
    pub workers: u8,
}

/// What both actors are made from: the pass of each, and the writers of all hubs.
#[derive(Drop)]
pub(crate) struct ActorSupply<R: Wait + Copy + Drop> {
    pub takers: (TakePass, TakePass),
    pub writers: Vec<(Snowflake, HubWriter<R>)>,
}

/// What is left for the parts that are not made yet: the passes of each sender and the readers of each
/// worker, in order, and the seats at the stop flag.
#[derive(Drop)]
pub(crate) struct Supply {
    pub passes: VecDeque<Vec<SendPass>>,
    pub readers: VecDeque<Vec<(Snowflake, HubReader)>>,
    pub seats: Seats,
}

impl Supply {
    /// The keeper of the stop flag and the next seat. All else is dropped. It does not allocate.
    pub(crate) fn into_flag(self) -> (StopFlag, StopSeat)
        requires { 0 < length self.seats.left.items }
    {
        let Supply {
            passes,
            readers,
            mut seats,
        } = self;
        drop(passes);
        drop(readers);
        let seat = seats.take_next();
        (seats.into_keeper(), seat)
    }
}

/// What the parts of a run share, and what they are made from.
#[derive(Drop)]
pub(crate) struct Opened<R: Wait + Copy + Drop> {
    pub ground: Ground<R>,
    pub actors: ActorSupply<R>,
    pub supply: Supply,
}

/// Opens the posts and the hubs of so many scripts and workers, and makes a seat for each part and one for
/// who starts them.
///
/// # Errors
/// Out of memory, or a place at a hub that could not be had.
pub(crate) fn open_all<R: Wait + Copy + Drop>(
    rt: R,
    alloc: Global,
    guilds: &[Snowflake],
    counts: Counts,
) -> Result<Opened<R>, AllocError>
    requires { (1 ≤ counts.workers) × (counts.scripts + counts.workers ≤ 16) }
    ensures { IfOk result (λ s. IsSupply s.ground.posts guilds.now counts.scripts counts.workers s.actors s.supply) }
{
    let senders = counts.scripts + counts.workers;
    let opened = open_posts(rt, alloc, senders)?;
    let hubs = open_hubs(rt, alloc, guilds, counts.workers)?;
    let seats = Seats::all(alloc, senders + 3)?;
    let (posts, takers, passes) = opened.into_parts();
    let (writers, readers) = hubs.into_parts();
    let ground = Ground::new(rt, alloc, posts)?;
    Ok(Opened {
        ground,
        actors: ActorSupply { takers, writers },
        supply: Supply {
            passes,
            readers,
            seats,
        },
    })
}
