//! What a client says is done.

ghost use Rattle.std.specs.Prelude.{◌≡◌, ◌++◌, ◌∷◌, [], Bool, true, false, List, Option, MatchResult};
ghost use Rattle.gate_outside.specs.declared.sending.Sending.{Sending};
ghost use Rattle.gate_outside.specs.declared.sending.Sending.TheVariants as sending;
ghost use Rattle.client_run.specs.Histories.{sending_of, sendings, dial_in};
ghost use Rattle.client_run.specs.Turns.{IsSent, FailsAt, is_orderly, closed_by};

use crate::target::Target;
use crate::wire::Wire;
use client_session::Act;
use gate_outside::faults::Fault;
use gate_outside::links::Link;

/// Closes a link with a code. One that fails counts as closed.
pub fn close<L: Link + Drop>(wire: &mut Wire<L>, code: u16) -> Result<(), Fault>
    ensures gave { wire.new.tale.gave ≡ wire.old.tale.gave }
    ensures sent { (xs : List Sending) → IsSent false xs wire.old → MatchResult result
        (λ _. IsSent true (xs ++ sending.Close code ∷ []) wire.new) (FailsAt xs wire.new) }
{
    match wire.close(code) {
        Err(Fault::Memory) => Err(Fault::Memory),
        Err(Fault::Failed) => Ok(()),
        Ok(()) => Ok(()),
    }
}

// Sends a text.
fn send<L: Link + Drop>(wire: &mut Wire<L>, text: &str) -> Result<(), Fault>
    ensures gave { wire.new.tale.gave ≡ wire.old.tale.gave }
    ensures sent { (xs : List Sending) → IsSent false xs wire.old → MatchResult result
        (λ _. IsSent false (xs ++ sending.Text text.now ∷ []) wire.new) (FailsAt xs wire.new) }
{
    wire.send(text)
}

/// Does one thing that a client says, but for a dial.
pub fn act_on<L: Link + Drop>(wire: &mut Wire<L>, act: &Act) -> Result<(), Fault>
    ensures gave { wire.new.tale.gave ≡ wire.old.tale.gave }
    ensures sent { (closed : Bool) (xs : List Sending) → is_orderly closed (act.now ∷ []) ≡ true → IsSent closed xs wire.old → MatchResult result
        (λ _. IsSent (closed_by closed (act.now ∷ [])) (xs ++ sending_of act.now) wire.new) (FailsAt xs wire.new) }
{
    match act {
        Act::Send(text) => send(wire, text.as_str()),
        Act::Hang(code) => close(wire, *code),
        Act::DialFirst => Ok(()),
        Act::DialResume => Ok(()),
    }
}

/// Does what a client says, in order.
pub fn act_on_all<L: Link + Drop>(wire: &mut Wire<L>, acts: &[Act]) -> Result<(), Fault>
    requires { is_orderly false acts.now ≡ true }
    ensures gave { wire.new.tale.gave ≡ wire.old.tale.gave }
    ensures sent { (xs : List Sending) → IsSent false xs wire.old → MatchResult result
        (λ _. IsSent (closed_by false acts.now) (xs ++ sendings acts.now) wire.new) (FailsAt (xs ++ sendings acts.now) wire.new) }
{
    for act in acts {
        act_on(wire, act)?;
    }
    Ok(())
}

/// Where the client connects next, if it says so.
pub fn next_target(acts: &[Act]) -> Option<Target>
    ensures { result ≡ dial_in acts.now }
{
    for act in acts {
        match act {
            Act::DialFirst => return Some(Target::First),
            Act::DialResume => return Some(Target::Resume),
            Act::Send(_) => {}
            Act::Hang(_) => {}
        }
    }
    None
}
