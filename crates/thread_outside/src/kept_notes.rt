//! Notes that are kept.
ghost use Rattle.std.specs.Prelude.{◌≡◌, [], Some};

use collections::Duplicate;
use gate_outside::notes::Notes;
use std::alloc::{AllocError, Global};

/// Keeps a copy of each input that is noted.
#[derive(Drop)]
pub struct KeptNotes<I: Duplicate> {
    alloc: Global,
    notes: Vec<I>,
}

impl<I: Duplicate> KeptNotes<I> {
    /// No notes yet.
    pub fn new(alloc: Global) -> KeptNotes<I>
        ensures { result.notes.items ≡ [] }
    {
        KeptNotes {
            alloc,
            notes: Vec::new(alloc),
        }
    }

    /// The inputs that were noted, in order.
    pub fn notes(&self) -> &[I]
        ensures { result.now ≡ self.now.notes.items }
    {
        self.notes.as_slice()
    }
}

impl<I: Duplicate + Drop> Notes<I> for KeptNotes<I> {
    ghost noted = { λ n. Some n.notes.items };

    fn note(&mut self, input: &I) -> Result<(), AllocError> {
        let input = input.duplicate(self.alloc)?;
        self.notes.push(input)?;
        Ok(())
    }
}
