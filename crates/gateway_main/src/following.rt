//! The command `client URL TOKEN INTENTS COUNT`.

ghost use Rattle.std.specs.Prelude.{◌≡◌, IfOk};
ghost use Rattle.serve_run.specs.Serving.{sink_tale};
ghost use Rattle.gateway_main.specs.Following.{following, FollowsOver};

use client_follow::{FollowFault, Following, follow};
use collections::Text;
use gate_outside::back::Back;
use gate_outside::houses::House;
use intent_set::Intents;
use std::alloc::{AllocError, Global};
use std::sync::Wait;

// What the words name, in memory of its own.
fn following_of(
    alloc: Global,
    url: &str,
    token: &str,
    intents: Intents,
    count: u32,
) -> Result<Following, AllocError>
    ensures { IfOk result (λ f. f ≡ following url.now token.now intents count) }
{
    let url = Text::new(alloc, url)?;
    let token = Text::new(alloc, token)?;
    Ok(Following {
        url,
        token,
        intents,
        count: u64::from(count),
    })
}

/// Follows the gateway at that URL over the house's dial, with a clock of the house, which it puts back.
pub fn run_client<R: Wait + Drop, H: House>(
    rt: &R,
    alloc: Global,
    url: &str,
    token: &str,
    intents: Intents,
    count: u32,
    house: &mut H,
    sink: &mut H::Out,
) -> Result<(), FollowFault>
where
    H::Wire: Drop,
    requires { (H.tale house.old).dry_run ≡ 0 }
    ensures { FollowsOver (following url.now token.now intents count)
        (H.house_tale house.old) (H.house_tale house.new) (H.tale house.old) (H.tale house.new)
        (sink_tale (H.Out.got sink.old) (H.Out.waits sink.old) (H.Out.faults sink.old))
        (sink_tale (H.Out.got sink.new) (H.Out.waits sink.new) (H.Out.faults sink.new)) result }
{
    let Ok(following) = following_of(alloc, url, token, intents, count) else {
        return Err(FollowFault::Memory);
    };
    let Ok(mut clock) = house.clock() else {
        return Err(FollowFault::Memory);
    };
    let followed = follow(rt, alloc, following, house, &mut clock, sink);
    house.put_back(Back::Clock(clock));
    followed
}
