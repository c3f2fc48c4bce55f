//! The client's loop.

ghost use Rattle.std.specs.Prelude.{◌≡◌, ◌<◌, ◌+◌, List};
ghost use Rattle.client_run.specs.Histories.{Visit, dropped};
ghost use Rattle.client_run.specs.Drives.{Drives, Folds, Tells, outside, seen};
ghost use Rattle.client_run.specs.Turns.{Attempts, TellsDriven};
ghost use Rattle.client_run.specs.declared.target.Target.TheVariants.{First};

use crate::driven::Driven;
use crate::fault::DriveFault;
use crate::route::Route;
use crate::turns::visit;
use crate::watch::Watch;
use crate::wire::Wire;
use client_session::Client;
use collections::Text;
use gate_outside::clocks::Clock;
use gate_outside::dials::Dial;
use gate_outside::faults::Fault;
use std::alloc::Global;
use std::sync::Wait;

// One dial, and the turns on the link that it gives.
fn attempt<D: Dial, C: Clock, K, W: Watch<K>, R: Wait + Drop>(
    rt: &R,
    alloc: Global,
    route: &mut Route,
    client: &mut Client,
    dial: &mut D,
    clock: &mut C,
    watch: &mut W,
    out: &mut K,
) -> Result<Option<Driven>, DriveFault>
where
    D::Wire: Drop,
    requires same { route.old.dry_run ≡ (D.tale dial.old).dry_run }
    requires wet { route.old.dry_run < 9 }
    ensures attempts { (vs : List Visit) × (Attempts route.old route.new vs
        (outside client.old (D.tale dial.old) (seen (C.tale clock.old) (W.told watch.old out.old)))
        (outside client.new (D.tale dial.new) (seen (C.tale clock.new) (W.told watch.new out.new))) result
        × (W.reconnects watch.new ≡ W.reconnects watch.old + dropped vs)) }
    ensures house { D.house_tale dial.new ≡ D.house_tale dial.old }
    ensures tells { TellsDriven (W.finished watch.new client.new.kept) (W.stopped watch.new) result }
{
    match route.open_link(dial, client) {
        Ok(link) => {
            let mut wire = Wire::new(link);
            let ended = visit(rt, alloc, client, &mut wire, clock, watch, out);
            route.hang_up(dial, wire);
            route.follow(ended)
        }
        Err(Fault::Memory) => Err(DriveFault::Memory),
        Err(Fault::Failed) => {
            if route.is_dry() {
                return Err(DriveFault::Dials);
            }
            clock.pause();
            Ok(None)
        }
    }
}

// Dials again and again.
fn drive_from<D: Dial, C: Clock, K, W: Watch<K>, R: Wait + Drop>(
    rt: &R,
    alloc: Global,
    route: &mut Route,
    client: &mut Client,
    dial: &mut D,
    clock: &mut C,
    watch: &mut W,
    out: &mut K,
) -> Result<Driven, DriveFault>
where
    D::Wire: Drop,
    requires same { route.old.dry_run ≡ (D.tale dial.old).dry_run }
    requires wet { route.old.dry_run < 9 }
    ensures drives { (vs : List Visit) × (Drives route.old.first route.old.target vs
        (outside client.old (D.tale dial.old) (seen (C.tale clock.old) (W.told watch.old out.old)))
        (outside client.new (D.tale dial.new) (seen (C.tale clock.new) (W.told watch.new out.new))) result
        × (W.reconnects watch.new ≡ W.reconnects watch.old + dropped vs)) }
    ensures house { D.house_tale dial.new ≡ D.house_tale dial.old }
    ensures tells { Tells (W.finished watch.new client.new.kept) (W.stopped watch.new) result }
{
    for _ in rt.forever() {
        if watch.is_stopped() {
            return Ok(Driven::Stopped);
        }
        match attempt(rt, alloc, route, client, dial, clock, watch, out) {
            Ok(Some(driven)) => return Ok(driven),
            Ok(None) => {}
            Err(fault) => return Err(fault),
        }
    }
    unreachable!()
}

/// Drives a client: dials the URL, and takes turns on the link until the connection ends; then the dial
/// takes the link back, and the client connects where it says. A turn is a heartbeat if one is due, then
/// what the link gives; what the client says is done in order. A call that fails loses the connection,
/// but a close that fails counts as done. Where nothing waits the clock pauses, as it does before a dial
/// that failed is tried again. The watcher ends it. It waits as long as the gateway does.
///
/// # Errors
/// `Dials` exactly if nine dials and links have failed, one after another, without a text between them.
/// `Out` only if the gateway closed the connection with a code after which no reconnect is allowed,
/// `BadText` only if a text was no payload. `Memory` from any call ends it. Each link went back to the
/// dial after every answer.
pub fn drive<D: Dial, C: Clock, K, W: Watch<K>, R: Wait + Drop>(
    rt: &R,
    alloc: Global,
    client: &mut Client,
    url: &str,
    dial: &mut D,
    clock: &mut C,
    watch: &mut W,
    out: &mut K,
) -> Result<Driven, DriveFault>
where
    D::Wire: Drop,
    requires { (D.tale dial.old).dry_run ≡ 0 }
    ensures drives { (vs : List Visit) × (Drives url.now First vs
        (outside client.old (D.tale dial.old) (seen (C.tale clock.old) (W.told watch.old out.old)))
        (outside client.new (D.tale dial.new) (seen (C.tale clock.new) (W.told watch.new out.new))) result
        × (Folds client.old vs client.new × (W.reconnects watch.new ≡ W.reconnects watch.old + dropped vs))) }
    ensures house { D.house_tale dial.new ≡ D.house_tale dial.old }
    ensures tells { Tells (W.finished watch.new client.new.kept) (W.stopped watch.new) result }
{
    let Ok(first) = Text::new(alloc, url) else {
        return Err(DriveFault::Memory);
    };
    let mut route = Route::new(first);
    drive_from(rt, alloc, &mut route, client, dial, clock, watch, out)
}
