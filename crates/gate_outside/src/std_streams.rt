//! Sources and sinks over the system. Contracts see their counts, and no bytes.
ghost use Rattle.std.specs.Prelude.{◌≡◌, ◌<◌, ◌≤◌, [], length, None, Ok, IfOk, OnOk, OnErr, IsOkUnless};
ghost use Rattle.std.specs.Io.{ReadsAtMost};
ghost use Rattle.std.specs.Io.KnownBytes.{Appends, ReadConsumes};
ghost use Rattle.gate_outside.specs.Causes.{HasCause, FaultHasCause, count_after};
ghost use Rattle.gate_outside.specs.StdStreams.{new_input, after_read};
ghost use Rattle.gate_outside.specs.Streams.{EndsOnce, Carries, Takes};
ghost use Rattle.gate_outside.specs.declared.faults.Fault.TheVariants as fault;

use crate::faults::{Failed, Fault};
use crate::streams::{Sink, Source};
use std::io;
use std::io::{Print, Read};
use std::marker::Model;

// Where the bytes come from.
#[derive(Drop)]
enum Origin<F: Read + Drop, I: Read + Drop> {
    File(F),
    Standard(I),
}

/// A source over an open file, or over standard input.
#[derive(Drop)]
pub struct FileSource<F: Read + Drop, I: Read + Drop> {
    origin: Origin<F, I>,
    ended: bool,
    faults: u64,
}

impl<F: Read + Drop, I: Read + Drop> Model for FileSource<F, I> {
    ghost use Rattle.gate_outside.specs.StdStreams.{InputState};

    ghost Value = { InputState };

    ghost view = { λ s. record {
      ended = s.ended;
      faults = s.faults;
    } };
}

impl<F: Read + Drop, I: Read + Drop> FileSource<F, I> {
    /// A source over a file that is open.
    pub fn file(file: F) -> FileSource<F, I>
        ensures { result ≡ new_input }
    {
        FileSource {
            origin: Origin::File(file),
            ended: false,
            faults: 0,
        }
    }

    /// A source over standard input.
    pub fn standard_input(input: I) -> FileSource<F, I>
        ensures { result ≡ new_input }
    {
        FileSource {
            origin: Origin::Standard(input),
            ended: false,
            faults: 0,
        }
    }

    /// How often a read failed.
    pub fn faults(&self) -> u64
        ensures { result ≡ self.now.faults }
    {
        self.faults
    }
}

impl<F: Read + Drop, I: Read + Drop> Source for FileSource<F, I> {
    ghost left = { λ _. None };

    ghost ended = { λ s. s.ended };

    ghost faults = { λ s. s.faults };

    fn read(&mut self, into: &mut [u8]) -> Result<usize, Failed>
        ensures bound { ReadsAtMost result into.new }
        ensures bytes { ReadConsumes None None result into.new }
        ensures end { EndsOnce self.old.ended self.new.ended result into.new }
        ensures cause { HasCause self.old.faults self.new.faults result }
        ensures exact { self.new ≡ after_read self.old (length into.old) result }
    {
        if self.ended {
            return Ok(0);
        }
        let answer = match &mut self.origin {
            Origin::File(file) => file.read(into),
            Origin::Standard(input) => input.read(into),
        };
        match answer {
            Ok(count) => {
                self.ended = count == 0 && !into.is_empty();
                Ok(count)
            }
            Err(_) => {
                self.faults = self.faults.saturating_add(1);
                Err(Failed)
            }
        }
    }
}

/// A sink over standard output. Each piece goes out by one call, without a buffer.
#[derive(Drop)]
pub struct StdoutSink<P: Print + Drop> {
    output: P,
    faults: u64,
}

impl<P: Print + Drop> Model for StdoutSink<P> {
    ghost use Rattle.std.specs.Prelude.{ℕ};

    ghost Value = { ℕ };

    ghost view = { λ s. s.faults };
}

impl<P: Print + Drop> StdoutSink<P> {
    /// A sink over what the runtime prints to.
    pub fn new(output: P) -> StdoutSink<P>
        ensures { result ≡ 0 }
    {
        StdoutSink { output, faults: 0 }
    }

    /// How often a write failed.
    pub fn faults(&self) -> u64
        ensures { result ≡ self.now }
    {
        self.faults
    }
}

impl<P: Print + Drop> Sink for StdoutSink<P> {
    ghost got = { λ _. None };

    ghost waits = { λ _. [] };

    ghost faults = { λ s. s };

    fn write(&mut self, from: &[u8]) -> Result<usize, Fault>
        ensures bound { IfOk result (λ n. n ≤ length from.now) }
        ensures some { IfOk result (λ n. 0 < length from.now → 0 < n) }
        ensures bytes { Takes None None [] [] result from.now }
        ensures cause { FaultHasCause self.old self.new result }
        ensures refused { IsOkUnless result fault.Failed }
        ensures exact { self.new ≡ count_after self.old result }
    {
        if let Ok(count) = self.output.write_some(from) {
            if count > 0 || from.is_empty() {
                return Ok(count);
            }
        }
        self.faults = self.faults.saturating_add(1);
        Err(Fault::Failed)
    }

    fn flush(&mut self) -> Result<(), Fault>
        ensures ok { OnOk result (Appends None None []) }
        ensures err { OnErr result (Carries None None [] []) }
        ensures cause { FaultHasCause self.old self.new result }
        ensures exact { (result ≡ Ok tt) × (self.new ≡ self.old) }
    {
        Ok(())
    }
}
