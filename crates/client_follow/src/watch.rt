//! The watcher of a client that follows a gateway.

ghost use Rattle.std.specs.Prelude.{◌≡◌, ◌++◌, [], false, is_ok, if◌then◌else◌};
ghost use Rattle.client_run.specs.Watched.{dispatch_line};

use crate::writing::write_out;
use client_cache::Cache;
use client_run::{Wants, Watch};
use dispatch_types::Dispatch;
use gate_outside::faults::Fault;
use gate_outside::streams::Sink;
use intent_set::Kind;
use itoa::Buffer;
use payload_text::append_all;
use std::alloc::{AllocError, Global};

/// A dispatch that the watcher has looked at.
#[derive(Clone, Copy, Debug)]
pub struct Seen {
    pub number: u64,
    pub kind: Kind,
}

/// The watcher of a client that follows a gateway. It writes the line of each dispatch, ends the client after
/// so many, and stops it where what it writes to fails.
#[derive(Drop)]
pub struct LineWatch {
    seen: Option<Seen>,
    count: u64,
    asked: u64,
    /// What has not been written yet.
    pub waiting: Vec<u8>,
    failed: bool,
}

impl LineWatch {
    /// A watcher that was not asked yet.
    pub fn new(alloc: Global, count: u64) -> LineWatch
        ensures count { result.count ≡ count }
        ensures asked { result.asked ≡ 0 }
        ensures waiting { result.waiting.items ≡ [] }
        ensures failed { result.failed ≡ false }
    {
        LineWatch {
            seen: None,
            count,
            asked: 0,
            waiting: Vec::new(alloc),
            failed: false,
        }
    }
}

// Adds the line of a dispatch. An `Err` adds nothing.
fn add_line(text: &mut Vec<u8>, seen: Seen) -> Result<(), AllocError>
    ensures { text.new.items ≡ (if is_ok result then text.old.items ++ dispatch_line seen.number seen.kind else text.old.items) }
{
    let mut buffer = Buffer::new();
    let number = buffer.format(seen.number);
    append_all(text, &[number, " ", seen.kind.name(), "\n"])
}

impl<K: Sink> Watch<K> for LineWatch {
    ghost use Rattle.std.specs.Prelude.{◌≡◌, ◌++◌, [], true, Some};
    ghost use Rattle.dispatch_types.specs.Kinds.{kind_of};

    ghost finished = { λ w _. (w.asked ≡ w.count) × (w.waiting.items ≡ []) };

    ghost stopped = { λ w. w.failed ≡ true };

    ghost looked = { λ w number dispatch. w.seen ≡ Some (record { number = number; kind = kind_of dispatch }) };

    ghost told = { λ w sink. record {
      count = Some w.asked;
      goal = Some w.count;
      got = K.got sink;
      waits = K.waits sink ++ w.waiting.items;
      faults = K.faults sink;
      failed = w.failed;
    } };

    ghost reconnects = { λ _. 0 };

    fn is_stopped(&mut self) -> bool
        ensures never { result ≡ false }
        ensures same { self.new ≡ self.old }
    {
        false
    }

    fn before_dispatch(&mut self, number: u64, dispatch: &Dispatch) -> Result<(), AllocError> {
        self.seen = Some(Seen {
            number,
            kind: dispatch.kind(),
        });
        Ok(())
    }

    fn after_dispatch(&mut self, _cache: &Cache, sink: &mut K) -> Result<Wants, AllocError> {
        let (Some(seen), Some(asked)) = (self.seen, self.asked.checked_add(1)) else {
            return Err(AllocError);
        };
        if let Err(error) = add_line(&mut self.waiting, seen) {
            return Err(error);
        }
        self.asked = asked;
        match write_out(&mut self.waiting, sink) {
            Ok(()) if asked == self.count => Ok(Wants::Finish),
            Ok(()) => Ok(Wants::GoOn),
            Err(Fault::Failed) => {
                self.failed = true;
                Ok(Wants::Stop)
            }
            Err(Fault::Memory) => Err(AllocError),
        }
    }
}
