//! A client of a load before it runs.

ghost use Rattle.std.specs.Prelude.{◌≡◌, List};
ghost use Rattle.client_run.specs.Histories.{Visit};
ghost use Rattle.load_client.specs.Ended.{HasEnded};

use crate::ended_client::EndedClient;
use crate::name_goal::NameGoal;
use crate::watch::{Beginning, LoadWatch};
use client_run::drive;
use client_session::Client;
use collections::Text;
use gate_outside::clocks::Clock;
use gate_outside::dials::Dial;
use intent_set::Intents;
use std::alloc::Global;
use std::marker::Brand;
use std::sync::Wait;
use stop_flag::StopSeat;

/// A client of a load before it runs.
#[derive(Drop)]
pub struct LoadClient {
    /// The token that it identifies by.
    pub token: Text,
    /// What it asks for.
    pub intents: Intents,
    /// The URL that it dials first.
    pub url: Text,
    /// What it waits for.
    pub goal: NameGoal,
    /// Its seat at the load's stop flag.
    pub seat: StopSeat,
}

// Runs a client whose watcher begins with what was picked.
fn run_from<D: Dial, C: Clock, R: Wait + Drop, B: Beginning>(
    rt: &R,
    alloc: Global,
    load_client: LoadClient,
    dial: &mut D,
    clock: &mut C,
) -> EndedClient
where
    D::Wire: Drop,
    requires dry { (D.tale dial.old).dry_run ≡ 0 }
    requires seat { load_client.seat ≡ B.seat }
    requires goal { load_client.goal ≡ B.goal }
    ensures { (vs : List Visit) × HasEnded load_client vs (D.tale dial.old) (D.tale dial.new) (C.tale clock.old) (C.tale clock.new) result }
{
    let LoadClient {
        token,
        intents,
        url,
        goal,
        seat,
    } = load_client;
    let mut client = Client::new(alloc, token, intents);
    let mut watch: LoadWatch<B> = LoadWatch::new(goal, seat);
    let driven = drive(
        rt,
        alloc,
        &mut client,
        url.as_str(),
        dial,
        clock,
        &mut watch,
        &mut (),
    );
    EndedClient {
        client,
        seat: watch.leave(driven),
        driven,
    }
}

impl LoadClient {
    /// Runs the client until its goal is met, until it finds the stop flag set, or until a fault, after
    /// which its seat sets the flag. It drops its link after each 200 dispatches, ten times, and connects
    /// again. It looks at the flag before each dial and before each turn on a link.
    pub fn run<D: Dial, C: Clock, R: Wait + Drop>(
        self,
        rt: &R,
        alloc: Global,
        dial: &mut D,
        clock: &mut C,
    ) -> EndedClient
    where
        D::Wire: Drop,
        requires { (D.tale dial.old).dry_run ≡ 0 }
        ensures { (vs : List Visit) × HasEnded self vs (D.tale dial.old) (D.tale dial.new) (C.tale clock.old) (C.tale clock.new) result }
    {
        run_from::<D, C, R, Brand>(rt, alloc, self, dial, clock)
    }
}
