//! What an actor's part does once it has begun.
ghost use Rattle.std.specs.Prelude.{IfOk};
ghost use Rattle.gate_parts.specs.Ready.{CanAct};
ghost use Rattle.gate_parts.specs.Actors.{ActsAs};

use edit_post::{Post, TakePass};
use guild_actor::{ActReport, act};
use guild_hub::HubWriter;
use snowflake_id::Snowflake;
use std::alloc::{AllocError, Global};
use std::sync::Wait;
use wake_bell::Bell;

/// Acts on the post at a place, and rings after each request that it publishes.
pub(crate) fn act_at<R: Wait + Drop>(
    rt: &R,
    alloc: Global,
    posts: &[Post<R>],
    shown: &Bell,
    place: usize,
    pass: TakePass,
    writers: Vec<(Snowflake, HubWriter<R>)>,
) -> Result<ActReport<R>, AllocError>
    requires { CanAct posts.now place pass writers.items }
    ensures { IfOk result (ActsAs pass writers.items) }
{
    let report = act(rt, alloc, &posts[place], shown, pass, writers)?;
    Ok(report)
}
