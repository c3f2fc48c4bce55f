//! A source that a house in memory gave.
ghost use Rattle.std.specs.Prelude.{◌≡◌, length, Some, IfOk};
ghost use Rattle.std.specs.Io.{ReadsAtMost};
ghost use Rattle.std.specs.Io.KnownBytes.{ReadConsumes};
ghost use Rattle.gate_outside.specs.Causes.{HasCause};
ghost use Rattle.gate_outside.specs.MemStreams.{Reads};
ghost use Rattle.gate_outside.specs.Shelves.{part_at};
ghost use Rattle.gate_outside.specs.Streams.{EndsOnce};

use crate::faults::Failed;
use crate::mem_streams::MemSource;
use crate::shelf::Place;
use crate::streams::Source;
use std::alloc::{AllocError, Global};
use std::marker::Model;

/// A source that a house in memory gave. It brings the place where the house keeps it once it is back.
#[derive(Drop)]
pub struct HouseSource {
    place: Box<Place<MemSource>>,
}

impl Model for HouseSource {
    ghost use Rattle.gate_outside.specs.MemStreams.{SourceState};
    ghost use Rattle.gate_outside.specs.Shelves.{part_at};

    ghost Value = { SourceState };

    ghost view = { λ s. part_at s.place.value };
}

impl HouseSource {
    // The source with a place for it.
    pub(crate) fn new(alloc: Global, source: MemSource) -> Result<HouseSource, AllocError>
        ensures { IfOk result (λ s. s ≡ source) }
    {
        Ok(HouseSource {
            place: Place::new(alloc, source)?,
        })
    }

    // How often a read failed.
    pub(crate) fn faults(&self) -> u64
        ensures { result ≡ self.now.plan.faults }
    {
        self.place.part.faults()
    }

    // The source at its place.
    pub(crate) fn into_place(self) -> Box<Place<MemSource>>
        ensures { part_at result.value ≡ self }
    {
        self.place
    }
}

impl Source for HouseSource {
    ghost left = { λ s. Some s.left };

    ghost ended = { λ s. s.ended };

    ghost faults = { λ s. s.plan.faults };

    fn read(&mut self, into: &mut [u8]) -> Result<usize, Failed>
        ensures bound { ReadsAtMost result into.new }
        ensures bytes { ReadConsumes (Some self.old.left) (Some self.new.left) result into.new }
        ensures end { EndsOnce self.old.ended self.new.ended result into.new }
        ensures cause { HasCause self.old.plan.faults self.new.plan.faults result }
        ensures exact { Reads result self.old self.new (length into.old) }
    {
        self.place.part.read(into)
    }
}
