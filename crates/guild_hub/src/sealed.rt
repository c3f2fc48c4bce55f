//! A log that is sealed.

ghost use Rattle.std.specs.Prelude.{◌≡◌, length, true};
ghost use Rattle.guild_hub.specs.Logs.{whole_record, accepted as accepted_in};

use crate::front::Front;
use crate::note::Note;
use crate::ruled::LogWriter;
use guild_model::Guild;
use std::marker::Model;
use std::mem;
use std::sync::Wait;

/// A log that is sealed: nothing is added to it. Readers may look at it as long as it is not dropped;
/// after that their looks answer `Memory`.
pub struct SealedLog<R: Wait + Drop> {
    rt: R,
    note: Note,
    front: Front,
    writer: LogWriter,
}

impl<R: Wait + Drop> Model for SealedLog<R> {
    ghost use Rattle.std.specs.Prelude.{◌≡◌, true};
    ghost use Rattle.guild_hub.specs.Logs.{Published, whole_record, accepted as accepted_in};

    ghost Value = { Published };

    ghost view = { λ s. s.note };

    ghost invariant = { λ s. (s.note.sealed ≡ true) × (s.front.record ≡ whole_record s.note) × (s.front.accepted ≡ accepted_in s.note) × (s.writer.desk.shown.value.note ≡ s.note) };
}

impl<R: Wait + Drop> Drop for SealedLog<R> {
    fn drop(self) {
        let Self {
            rt,
            note: _note,
            front,
            writer,
        } = self;
        drop(front);
        drop(writer.take(&rt));
    }
}

impl<R: Wait + Drop> SealedLog<R> {
    // A log whose seal is published.
    pub(crate) fn of(rt: R, note: Note, front: Front, writer: LogWriter) -> SealedLog<R>
        requires sealed { note.sealed ≡ true }
        requires front { (front.record ≡ whole_record note) × (front.accepted ≡ accepted_in note) }
        requires shown { writer.desk.shown.value.note ≡ note }
        ensures { result ≡ note }
    {
        SealedLog {
            rt,
            note,
            front,
            writer,
        }
    }

    /// The note of the whole log. It does not allocate.
    pub fn tell(&self) -> Note
        ensures { result ≡ self.now }
    {
        self.note.again()
    }

    /// The number of entries. It does not allocate.
    pub fn len(&self) -> u64
        ensures { result ≡ length self.now.entries }
    {
        self.note.len()
    }

    /// The number of entries that were accepted. It does not allocate.
    pub fn accepted(&self) -> u64
        ensures { result ≡ accepted_in self.now }
    {
        self.front.accepted
    }

    /// The record after all entries. It does not allocate.
    pub fn record(&self) -> &Guild
        ensures { result.now ≡ whole_record self.now }
    {
        &self.front.record
    }
}

/// Leaves a log that is not sealed to its readers for good.
pub(crate) fn leave_to_readers<R: Wait + Drop>(rt: R, writer: LogWriter) {
    mem::forget(Kept { rt, writer });
}

// A writer that may be forgotten.
struct Kept<R: Wait + Drop> {
    rt: R,
    writer: LogWriter,
}

impl<R: Wait + Drop> Drop for Kept<R> {
    fn drop(self) {
        let Self { rt, writer } = self;
        drop(writer.take(&rt));
    }
}
