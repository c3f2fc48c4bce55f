//! A client that follows a gateway.

ghost use Rattle.std.specs.Prelude.{◌≡◌, List};
ghost use Rattle.client_run.specs.Histories.{Visit};
ghost use Rattle.client_follow.specs.Follows.{Follows, around, sink_tale};

use crate::ending::end;
use crate::fault::FollowFault;
use crate::following::Following;
use crate::watch::LineWatch;
use client_run::drive;
use client_session::Client;
use gate_outside::clocks::Clock;
use gate_outside::dials::Dial;
use gate_outside::streams::Sink;
use std::alloc::Global;
use std::sync::Wait;

/// Follows a gateway: connects by the URL, and again where its connection is lost, folds each dispatch into
/// what the client holds, and writes its line, which is its number and name. After so many dispatches as are
/// asked for it closes the connection with 1000, and writes for each guild of which it holds a view, ascending,
/// how many channels, threads and members it holds. Each line goes out at once.
/// It waits as long as the gateway does.
///
/// # Errors
/// `Write` if the sink fails before that. `Dials` if nine dials and links have failed, one after another,
/// without a text between them. `Closed` if the gateway closed the connection with a code after which no
/// reconnect is allowed, after the line `closed CODE`. `BadText` if a text was no payload, after the line
/// `bad text`. `Memory` from any call ends it. Each link went back to the dial after every answer.
pub fn follow<D: Dial, C: Clock, K: Sink, R: Wait + Drop>(
    rt: &R,
    alloc: Global,
    following: Following,
    dial: &mut D,
    clock: &mut C,
    sink: &mut K,
) -> Result<(), FollowFault>
where
    D::Wire: Drop,
    requires { (D.tale dial.old).dry_run ≡ 0 }
    ensures house { D.house_tale dial.new ≡ D.house_tale dial.old }
    ensures follows { (vs : List Visit) × Follows following vs
        (around (D.tale dial.old) (C.tale clock.old) (sink_tale (K.got sink.old) (K.waits sink.old) (K.faults sink.old)))
        (around (D.tale dial.new) (C.tale clock.new) (sink_tale (K.got sink.new) (K.waits sink.new) (K.faults sink.new))) result }
{
    let Following {
        url,
        token,
        intents,
        count,
    } = following;
    let mut watch = LineWatch::new(alloc, count);
    let mut client = Client::new(alloc, token, intents);
    let ended = drive(
        rt,
        alloc,
        &mut client,
        url.as_str(),
        dial,
        clock,
        &mut watch,
        sink,
    );
    let LineWatch { waiting, .. } = watch;
    end(ended, client.cache(), waiting, sink)
}
