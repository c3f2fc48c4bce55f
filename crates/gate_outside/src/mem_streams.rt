//! A source and a sink in memory, each in a form whose calls fail by a plan and in a form that never
//! fails.
ghost use Rattle.std.specs.Prelude.{◌≡◌, ◌<◌, ◌≤◌, [], ◌++◌, false, length, min, Some, Ok, IfOk, OnOk, OnErr};
ghost use Rattle.std.specs.Io.{ReadsAtMost};
ghost use Rattle.std.specs.Io.KnownBytes.{Appends, ReadConsumes};
ghost use Rattle.gate_outside.specs.Causes.{HasCause, FaultHasCause};
ghost use Rattle.gate_outside.specs.FaultPlans.{fresh};
ghost use Rattle.gate_outside.specs.Streams.{EndsOnce, Carries, Takes};
ghost use Rattle.gate_outside.specs.MemStreams.{Reads, Writes};

use crate::fault_plan::FaultPlan;
use crate::faults::{Failed, Fault};
use crate::streams::{Sink, Source};
use crate::unread::Unread;
use std::alloc::Global;
use std::marker::Model;

/// A source in memory, some of whose reads fail.
#[derive(Drop)]
pub struct MemSource {
    left: Unread,
    most: usize,
    ended: bool,
    plan: FaultPlan,
}

impl Model for MemSource {
    ghost use Rattle.std.specs.Prelude.{◌≡◌, ◌<◌, [], true};
    ghost use Rattle.gate_outside.specs.MemStreams.{SourceState};

    ghost Value = { SourceState };

    ghost view = { λ s. record {
      left = s.left;
      most = s.most;
      ended = s.ended;
      plan = s.plan;
    } };

    ghost invariant = { λ s. (0 < s.most) × (s.ended ≡ true → s.left ≡ []) };
}

impl MemSource {
    /// A source of these bytes. `failing` has the numbers of the reads that are to fail, from 1. A read
    /// after one that found the end never fails.
    pub fn new(bytes: Vec<u8>, failing: Vec<u64>) -> MemSource
        ensures { result ≡ record {
          left = bytes.items;
          most = usize.MAX;
          ended = false;
          plan = fresh failing.items;
        } }
    {
        MemSource::with_most(bytes, usize::MAX, failing)
    }

    /// The same, of which one read gives at most `most` bytes.
    pub fn with_most(bytes: Vec<u8>, most: usize, failing: Vec<u64>) -> MemSource
        requires { 0 < most }
        ensures { result ≡ record {
          left = bytes.items;
          most = most;
          ended = false;
          plan = fresh failing.items;
        } }
    {
        MemSource {
            left: Unread::new(bytes),
            most,
            ended: false,
            plan: FaultPlan::new(failing),
        }
    }

    /// How often a read failed.
    pub fn faults(&self) -> u64
        ensures { result ≡ self.now.plan.faults }
    {
        self.plan.faults()
    }
}

impl Source for MemSource {
    ghost left = { λ s. Some s.left };

    ghost ended = { λ s. s.ended };

    ghost faults = { λ s. s.plan.faults };

    fn read(&mut self, into: &mut [u8]) -> Result<usize, Failed>
        ensures bound { ReadsAtMost result into.new }
        ensures bytes { ReadConsumes (Some self.old.left) (Some self.new.left) result into.new }
        ensures end { EndsOnce self.old.ended self.new.ended result into.new }
        ensures cause { HasCause self.old.plan.faults self.new.plan.faults result }
        ensures exact { Reads result self.old self.new (length into.old) }
    {
        if self.plan.fails() && !self.ended {
            self.plan.count_failed_call();
            return Err(Failed);
        }
        let count = self.left.read(into, self.most);
        self.ended = self.ended || (count == 0 && !into.is_empty());
        self.plan.count_call();
        Ok(count)
    }
}

/// A source in memory that never fails.
#[derive(Drop)]
pub struct SureSource {
    left: Unread,
}

impl Model for SureSource {
    ghost use Rattle.std.specs.Prelude.{List, ℕ};

    ghost Value = { List ℕ };

    ghost view = { λ s. s.left };
}

impl SureSource {
    /// A source of these bytes.
    pub fn new(bytes: Vec<u8>) -> SureSource
        ensures { result ≡ bytes.items }
    {
        SureSource {
            left: Unread::new(bytes),
        }
    }
}

impl Source for SureSource {
    ghost use Rattle.std.specs.Prelude.{◌==◌};

    ghost left = { λ s. Some s };

    ghost ended = { λ s. length s == 0 };

    ghost faults = { λ _. 0 };

    fn read(&mut self, into: &mut [u8]) -> Result<usize, Failed>
        ensures bound { ReadsAtMost result into.new }
        ensures bytes { ReadConsumes (Some self.old) (Some self.new) result into.new }
        ensures end { EndsOnce (length self.old == 0) (length self.new == 0) result into.new }
        ensures cause { HasCause 0 0 result }
        ensures exact { result ≡ Ok (min (length into.old) (length self.old)) }
    {
        let room = into.len();
        Ok(self.left.read(into, room))
    }
}

/// A sink in memory, some of whose writes fail.
#[derive(Drop)]
pub struct MemSink {
    got: Vec<u8>,
    most: usize,
    plan: FaultPlan,
}

impl Model for MemSink {
    ghost use Rattle.std.specs.Prelude.{◌<◌};
    ghost use Rattle.gate_outside.specs.MemStreams.{SinkState};

    ghost Value = { SinkState };

    ghost view = { λ s. record {
      got = s.got.items;
      most = s.most;
      plan = s.plan;
    } };

    ghost invariant = { λ s. 0 < s.most };
}

impl MemSink {
    /// An empty sink, of which one write takes at most `most` bytes. `failing` has the numbers of the
    /// writes that are to fail, from 1.
    pub fn new(alloc: Global, most: usize, failing: Vec<u64>) -> MemSink
        requires { 0 < most }
        ensures { result ≡ record {
          got = [];
          most = most;
          plan = fresh failing.items;
        } }
    {
        MemSink {
            got: Vec::new(alloc),
            most,
            plan: FaultPlan::new(failing),
        }
    }

    /// The bytes that it got.
    pub fn bytes(&self) -> &[u8]
        ensures { result.now ≡ self.now.got }
    {
        self.got.as_slice()
    }

    /// Takes the bytes out that it got.
    pub fn into_bytes(self) -> Vec<u8>
        ensures { result.items ≡ self.got }
    {
        self.got
    }

    /// How often a write failed.
    pub fn faults(&self) -> u64
        ensures { result ≡ self.now.plan.faults }
    {
        self.plan.faults()
    }
}

impl Sink for MemSink {
    ghost got = { λ s. Some s.got };

    ghost waits = { λ _. [] };

    ghost faults = { λ s. s.plan.faults };

    fn write(&mut self, from: &[u8]) -> Result<usize, Fault>
        ensures bound { IfOk result (λ n. n ≤ length from.now) }
        ensures some { IfOk result (λ n. 0 < length from.now → 0 < n) }
        ensures bytes { Takes (Some self.old.got) (Some self.new.got) [] [] result from.now }
        ensures cause { FaultHasCause self.old.plan.faults self.new.plan.faults result }
        ensures exact { Writes result self.old self.new from.now }
    {
        if self.plan.fails() {
            self.plan.count_failed_call();
            return Err(Fault::Failed);
        }
        let count = self.most.min(from.len());
        self.got.extend_from_slice(&from[..count])?;
        self.plan.count_call();
        Ok(count)
    }

    fn flush(&mut self) -> Result<(), Fault>
        ensures ok { OnOk result (Appends (Some self.old.got) (Some self.new.got) []) }
        ensures err { OnErr result (Carries (Some self.old.got) (Some self.new.got) [] []) }
        ensures cause { FaultHasCause self.old.plan.faults self.new.plan.faults result }
        ensures exact { (result ≡ Ok tt) × (self.new ≡ self.old) }
    {
        Ok(())
    }
}

/// A sink in memory that never fails.
#[derive(Drop)]
pub struct SureSink {
    got: Vec<u8>,
}

impl Model for SureSink {
    ghost use Rattle.std.specs.Prelude.{List, ℕ};

    ghost Value = { List ℕ };

    ghost view = { λ s. s.got.items };
}

impl SureSink {
    /// An empty sink.
    pub fn new(alloc: Global) -> SureSink
        ensures { result ≡ [] }
    {
        SureSink {
            got: Vec::new(alloc),
        }
    }

    /// The bytes that it got.
    pub fn bytes(&self) -> &[u8]
        ensures { result.now ≡ self.now }
    {
        self.got.as_slice()
    }

    /// Takes the bytes out that it got.
    pub fn into_bytes(self) -> Vec<u8>
        ensures { result.items ≡ self }
    {
        self.got
    }
}

impl Sink for SureSink {
    ghost use Rattle.std.specs.Prelude.{IsOkUnless};
    ghost use Rattle.gate_outside.specs.declared.faults.Fault.TheVariants as fault;

    ghost got = { λ s. Some s };

    ghost waits = { λ _. [] };

    ghost faults = { λ _. 0 };

    fn write(&mut self, from: &[u8]) -> Result<usize, Fault>
        ensures bound { IfOk result (λ n. n ≤ length from.now) }
        ensures some { IfOk result (λ n. 0 < length from.now → 0 < n) }
        ensures bytes { Takes (Some self.old) (Some self.new) [] [] result from.now }
        ensures cause { FaultHasCause 0 0 result }
        ensures whole { IfOk result (λ n. n ≡ length from.now) }
        ensures memory { IsOkUnless result fault.Memory }
    {
        self.got.extend_from_slice(from)?;
        Ok(from.len())
    }

    fn flush(&mut self) -> Result<(), Fault>
        ensures ok { OnOk result (Appends (Some self.old) (Some self.new) []) }
        ensures err { OnErr result (Carries (Some self.old) (Some self.new) [] []) }
        ensures cause { FaultHasCause 0 0 result }
        ensures exact { (result ≡ Ok tt) × (self.new ≡ self.old) }
    {
        Ok(())
    }
}
