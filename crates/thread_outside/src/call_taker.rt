//! What a door took of its dials.
ghost use Rattle.std.specs.Prelude.{◌≡◌, ◌<◌, ◌↔◌, IsTrue, MatchOption, IfOk, [], true, false};
ghost use Rattle.crossbeam_queue.specs.SegTies.{IsSegPassOf};
ghost use Rattle.thread_outside.specs.CallRule.{opening, view_of};
ghost use Rattle.thread_outside.specs.DialledDoors.{after_call_of, after_empty_take, with_dial, HaveEnded, FoundNone, TakesEnds};

use crate::call::Call;
use crate::calls::{CallPass, Calls};
use crate::unused_ends::UnusedEnds;
use std::alloc::{AllocError, Global};
use std::marker::Model;
use std::sync::{Arc, Wait};

// The door's end of its queue, which keeps in mind the dials that have ended.
pub(crate) struct CallTaker {
    calls: Arc<Calls, Global>,
    pass: CallPass,
    ended: Vec<bool>,
}

impl Drop for CallTaker {
    fn drop(self) {
        let CallTaker { calls, pass, ended } = self;
        drop(calls);
        drop(pass);
        drop(ended);
    }
}

impl Model for CallTaker {
    ghost use Rattle.std.specs.Prelude.{length};
    ghost use Rattle.thread_outside.specs.DialledDoors.{TakerState};
    ghost use Rattle.thread_outside.specs.CallInside.{IsCallTaker};

    ghost Value = { TakerState };

    ghost view = { λ t. record {
      queue = t.calls.value;
      dials = length t.ended.items;
      taken = t.pass.me.view.client.taken;
      empty_takes = t.pass.me.view.client.empty_takes;
    } };

    ghost invariant = { IsCallTaker };
}

impl CallTaker {
    // Takes for a door without dials.
    pub(crate) fn new(alloc: Global, calls: Arc<Calls, Global>, pass: CallPass) -> CallTaker
        requires { IsSegPassOf calls.value pass × (pass.me.view.client ≡ opening) }
        ensures { result ≡ record {
          queue = calls.value;
          dials = 0;
          taken = [];
          empty_takes = 0;
        } }
    {
        CallTaker {
            calls,
            pass,
            ended: Vec::new(alloc),
        }
    }

    // The queue, a pass and the number of the next dial.
    pub(crate) fn admit(&mut self) -> Result<(Arc<Calls, Global>, CallPass, u8), AllocError>
        requires { (self.old.dials < 256) × (self.old.taken ≡ []) }
        ensures dial { IfOk result (λ r. (r.0.value ≡ self.old.queue) × (r.2 ≡ self.old.dials) × IsSegPassOf r.0.value r.1 × (r.1.me.view.client ≡ view_of true r.2 [] false 0 [] 0)) }
        ensures taker { IfOk result (λ _. self.new ≡ with_dial self.old) }
    {
        let calls = Arc::try_clone(&self.calls)?;
        let dial = self.ended.len() as u8;
        self.ended.push(false)?;
        let pass = self.calls.admit(&mut self.pass);
        Ok((calls, pass, dial))
    }

    // Takes what waits first. `None` only if nothing waited at one step of the call.
    fn take<R: Wait>(&mut self, runtime: &R) -> Option<Call>
        ensures { MatchOption result
            ((self.new ≡ after_empty_take self.old) × FoundNone self.new)
            (λ call. self.new ≡ after_call_of self.old call) }
    {
        let call = self.calls.take(runtime, &mut self.pass)?;
        if call.ends.is_none() {
            self.ended[usize::from(call.caller)] = true;
        }
        Some(call)
    }

    // Takes until ends come. `None` only if nothing waited at one step of the call.
    pub(crate) fn next<R: Wait>(&mut self, runtime: &R) -> Option<UnusedEnds>
        ensures { TakesEnds self.old self.new result }
    {
        for _ in runtime.forever() {
            let Some(call) = self.take(runtime) else {
                return None;
            };
            if let Some(ends) = call.into_ends() {
                return Some(ends);
            }
        }
        unreachable!()
    }

    // Whether every dial has ended.
    pub(crate) fn all_ended(&self) -> bool
        ensures { IsTrue result ↔ HaveEnded self.now }
    {
        for dial in 0..self.ended.len() {
            if !self.ended[dial] {
                return false;
            }
        }
        true
    }

    // Whether a dial could not say that it has ended.
    pub(crate) fn is_starved(&self) -> bool {
        self.calls.is_starved()
    }
}
