//! The worker's loop.

ghost use Rattle.std.specs.Prelude.{◌≡◌, ◌<◌, All, length};
ghost use Rattle.world_law.specs.TheLaw.{TheLaw};
ghost use Rattle.worker_run.specs.Histories.{History};
ghost use Rattle.worker_run.specs.Hubs.{IsReader};
ghost use Rattle.guild_places.specs.Places.{AreDistinct, guilds_of};
ghost use Rattle.guild_posts.specs.Posts.{ArePasses};
ghost use Rattle.worker_run.specs.Works.{Works, outside};

use crate::fault::WorkFault;
use crate::report::WorkReport;
use crate::serving::Serving;
use edit_post::{Post, SendPass};
use gate_outside::clocks::Clock;
use gate_outside::doors::Door;
use gate_outside::notes::Notes;
use guild_hub::HubReader;
use guild_places::index_of;
use guild_posts::end_all;
use snowflake_id::Snowflake;
use std::alloc::Global;
use std::sync::Wait;
use worker_core::{Input, Worker};
use world_law::the_law;

/// Serves the connections of a door from the logs of hubs, in turns. One turn is a look at each hub in
/// order, the clock's time, one new connection until the door has ended, and what comes over each open
/// connection in order of arrival. Each input is noted, and its outputs go out before the next. A
/// connection whose link fails is lost. When the door has ended and no link is open, the worker ends its
/// passes and goes on looking until every log has its seal. It waits for other threads.
///
/// The edits that clients ask for go to the posts: those of the guild at place p of the readers by the
/// pass at place p modulo the number of posts.
///
/// # Errors
/// `Door` only if the door failed, `Quit` only if a log ended without a seal, `Spent` only if a count is
/// at its last value, and `Memory`. The passes have ended then too, and each link went back to the door.
pub fn work<D: Door, C: Clock, J: Notes<Input>, R: Wait + Drop>(
    rt: &R,
    alloc: Global,
    worker: Worker,
    door: &mut D,
    clock: &mut C,
    readers: &mut Vec<(Snowflake, HubReader)>,
    posts: &[Post<R>],
    passes: &mut Vec<SendPass>,
    notes: &mut J,
) -> Result<WorkReport, WorkFault>
where
    D::Wire: Drop,
    requires posts { 0 < length posts.now }
    requires passes { ArePasses posts.now passes.old.items }
    requires readers { All IsReader readers.old.items × AreDistinct (guilds_of readers.old.items) }
    ensures works { (h : History) × Works worker h
        (outside (D.tale door.old) (D.faults door.old) (C.tale clock.old) readers.old.items passes.old.items (J.noted notes.old))
        (outside (D.tale door.new) (D.faults door.new) (C.tale clock.new) readers.new.items passes.new.items (J.noted notes.new)) result }
    ensures law { TheLaw }
{
    the_law();
    let Ok(index) = index_of(alloc, readers.as_slice()) else {
        end_all(posts, passes);
        return Err(WorkFault::Memory);
    };
    let mut serving = Serving::new(alloc, worker, index, readers, passes);
    let worked = serving.run(rt, door, clock, notes, posts);
    let report = serving.report();
    serving.hand_back(door, readers, passes);
    worked?;
    Ok(report)
}
