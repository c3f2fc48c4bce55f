//! The loss of a connection.

ghost use Rattle.std.specs.Prelude.{List, None};
ghost use Rattle.client_session.specs.declared.act.Act.{Act as AnAct};
ghost use Rattle.client_session.specs.Step.{StepsTo, Loses};
ghost use Rattle.client_run.specs.Turns.{IsNext, IsLoss, IsDrop};

use crate::ending::Ending;
use crate::fault::DriveFault;
use crate::target::Target;
use client_session::{Act, Client};

// Tells a client that its connection is lost. Says where it connects next.
fn next_after(client: &mut Client, code: Option<u16>) -> Result<Target, DriveFault>
    ensures { (acts : List AnAct) × (StepsTo client.old (Loses code) client.new acts × IsNext code acts result) }
{
    match client.on_lost(code) {
        Ok(Act::DialResume) => Ok(Target::Resume),
        Ok(_) => Ok(Target::First),
        Err(fault) => Err(DriveFault::from(fault)),
    }
}

/// Tells a client that its connection is lost, with the code if it was closed with one.
pub fn lose(client: &mut Client, code: Option<u16>) -> Result<Option<Ending>, DriveFault>
    ensures { (acts : List AnAct) × (StepsTo client.old (Loses code) client.new acts × IsLoss code acts result) }
{
    match next_after(client, code) {
        Ok(target) => Ok(Some(Ending::Left(target))),
        Err(fault) => Err(fault),
    }
}

/// Tells a client that its connection is lost, which was dropped.
pub fn lose_dropped(client: &mut Client) -> Result<Option<Ending>, DriveFault>
    ensures { (acts : List AnAct) × (StepsTo client.old (Loses None) client.new acts × IsDrop acts result) }
{
    match next_after(client, None) {
        Ok(target) => Ok(Some(Ending::Dropped(target))),
        Err(fault) => Err(fault),
    }
}
