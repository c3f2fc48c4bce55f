//! Notes that are kept, and notes that are not.

use collections::Duplicate;
use gate_outside::notes::Notes;
use std::alloc::{AllocError, Global};
use thread_outside::kept_notes::KeptNotes;
use thread_outside::quiet_notes::QuietNotes;

#[derive(Clone, Copy, Debug)]
struct Number(u64);

impl Duplicate for Number {
    fn duplicate(&self, _alloc: Global) -> Result<Number, AllocError> {
        Ok(*self)
    }
}

fn note_all<N: Notes<Number>>(notes: &mut N) -> Result<(), AllocError> {
    for number in [3, 1, 3] {
        notes.note(&Number(number))?;
    }
    Ok(())
}

/// Shows both forms.
pub fn show(rt: &HostRuntime) -> anyhow::Result<()> {
    let mut kept: KeptNotes<Number> = KeptNotes::new(rt.alloc());
    note_all(&mut kept)?;
    note_all(&mut QuietNotes)?;
    let notes = kept.notes();
    println!(rt; "notes: {notes:?}")?;
    Ok(())
}
