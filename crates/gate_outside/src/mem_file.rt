//! What a house in memory has under a name.
ghost use Rattle.std.specs.Prelude.{◌≡◌, ◌<◌, IfOk};
ghost use Rattle.gate_outside.specs.MemHouses.{source_of};

use crate::house_source::HouseSource;
use crate::mem_streams::MemSource;
use crate::name::Name;
use std::alloc::{AllocError, Global};
use std::marker::Model;

/// A name with its bytes.
#[derive(Drop)]
pub struct MemFile {
    name: Name,
    bytes: Vec<u8>,
    most: usize,
    failing: Vec<u64>,
}

impl Model for MemFile {
    ghost use Rattle.std.specs.Prelude.{◌<◌};
    ghost use Rattle.gate_outside.specs.MemHouses.{FileState};

    ghost Value = { FileState };

    ghost view = { λ f. record {
      name = f.name;
      bytes = f.bytes.items;
      most = f.most;
      failing = f.failing.items;
    } };

    ghost invariant = { λ f. 0 < f.most };
}

impl MemFile {
    /// These bytes under that name. A source of them gives at most `most` bytes at one read, and
    /// `failing` has the numbers of its reads that are to fail, from 1.
    pub fn new(
        alloc: Global,
        name: &str,
        bytes: Vec<u8>,
        most: usize,
        failing: Vec<u64>,
    ) -> Result<MemFile, AllocError>
        requires { 0 < most }
        ensures { IfOk result (λ f. f ≡ record {
          name = name.now;
          bytes = bytes.items;
          most = most;
          failing = failing.items;
        }) }
    {
        let name = Name::new(alloc, name)?;
        Ok(MemFile {
            name,
            bytes,
            most,
            failing,
        })
    }

    // The name.
    pub(crate) fn name(&self) -> &str
        ensures { result.now ≡ self.now.name }
    {
        self.name.as_str()
    }

    // A source of the bytes before its first read.
    pub(crate) fn open(&self, alloc: Global) -> Result<HouseSource, AllocError>
        ensures { IfOk result (λ s. s ≡ source_of self.now) }
    {
        let bytes = self.bytes.as_slice().to_vec(alloc)?;
        let failing = self.failing.as_slice().to_vec(alloc)?;
        HouseSource::new(alloc, MemSource::with_most(bytes, self.most, failing))
    }
}
