//! The writer of a hub's log.

ghost use Rattle.std.specs.Prelude.{◌≡◌, ◌<◌, ◌-◌, ◌^◌, true, false, [], drop, length, IfOk, IfErr, MatchResult};
ghost use Rattle.guild_hub.specs.Logs.{with_entry, with_seal, whole_record, accepted as accepted_in};
ghost use Rattle.guild_hub.specs.Trims.{spine_of, IsTrimmed};
ghost use Rattle.guild_hub.specs.Writes.{Refuses, publishing};

use crate::front::{self, Front};
use crate::head::Head;
use crate::mark::{Mark, QuitNote};
use crate::note::Note;
use crate::ruled;
use crate::ruled::LogWriter;
use crate::sealed::{SealedLog, leave_to_readers};
use core::mem::replace_with;
use edit_apply::Edit;
use log_entry::Entry;
use std::alloc::{AllocError, Global};
use std::marker::Model;
use std::sync::Wait;

/// The most entries of a log.
pub const MOST: u64 = (1 << 53) - 1;

/// Why an entry is not published.
#[derive(Drop)]
pub enum HubRefused {
    /// The log has as many entries as it may have.
    Full,
    /// Out of memory. The writer may then only quit.
    Memory,
}

/// The one writer of a hub. It is dropped as it quits.
pub struct HubWriter<R: Wait + Drop> {
    rt: R,
    alloc: Global,
    head: Head,
    note: Note,
    writer: LogWriter,
    mark: Mark,
    spent: bool,
}

impl<R: Wait + Drop> Model for HubWriter<R> {
    ghost use Rattle.std.specs.Prelude.{◌≡◌, ◌≤◌, ◌-◌, ◌^◌, [], length, drop, false};
    ghost use Rattle.guild_hub.specs.Trims.{spine_of, IsTrimmed};
    ghost use Rattle.guild_hub.specs.Writes.{Publishing, publishing};

    ghost Value = { Publishing };

    ghost view = { λ w. publishing w.note w.mark.seen.book w.spent };

    ghost invariant = { λ w. (w.note.sealed ≡ false) × (length w.note.entries ≤ 2 ^ 53 - 1) × (w.spent ≡ false → (w.head.note ≡ w.note) × (w.writer.desk.shown.value.note ≡ w.note) × IsTrimmed (spine_of w.writer.desk.shown.value) × (drop w.writer.behind w.writer.log.items ≡ [])) };
}

// Seals the log that is shown, and gives what its entries come to.
fn seal_log<R: Wait>(
    rt: &R,
    alloc: Global,
    head: &mut Head,
    writer: LogWriter,
) -> (LogWriter, Result<Front, AllocError>)
    requires unsealed { (head.old.note.sealed ≡ false) × (length head.old.note.entries < 2 ^ 60) }
    requires shown { (writer.desk.shown.value.note ≡ head.old.note) × IsTrimmed (spine_of writer.desk.shown.value) × (drop writer.behind writer.log.items ≡ []) }
    ensures sealed { IfOk result.1 (λ _. (head.new.note ≡ with_seal head.old.note) × (result.0.desk.shown.value.note ≡ head.new.note)) }
    ensures front { IfOk result.1 (λ front. (front.record ≡ whole_record head.old.note) × (front.accepted ≡ accepted_in head.old.note)) }
{
    let front = match front::front_of(writer.published(), alloc) {
        Ok(front) => front,
        Err(error) => return (writer, Err(error)),
    };
    if !head.seal() {
        drop(front);
        return (writer, Err(AllocError));
    }
    let (writer, sealed) = ruled::seal(writer, (rt, head.note.again()));
    match sealed {
        Ok(()) => (writer, Ok(front)),
        Err(error) => {
            drop(front);
            (writer, Err(error))
        }
    }
}

impl<R: Wait + Drop> HubWriter<R> {
    // A writer that may publish.
    pub(crate) fn of(
        rt: R,
        alloc: Global,
        head: Head,
        writer: LogWriter,
        mark: Mark,
    ) -> HubWriter<R>
        requires empty { (head.note.entries ≡ []) × (head.note.sealed ≡ false) }
        requires shown { (writer.desk.shown.value.note ≡ head.note) × IsTrimmed (spine_of writer.desk.shown.value) × (drop writer.behind writer.log.items ≡ []) }
        ensures { result ≡ publishing head.note mark.seen.book false }
    {
        let note = head.note.again();
        HubWriter {
            rt,
            alloc,
            head,
            note,
            writer,
            mark,
            spent: false,
        }
    }

    /// Whether it may do no more than quit.
    pub fn is_spent(&self) -> bool
        ensures { result ≡ self.now.spent }
    {
        self.spent
    }

    /// The log as it is published.
    pub fn tell(&self) -> Note
        ensures { result ≡ self.now.log }
    {
        self.note.again()
    }

    // Adds an entry to the history and to what is shown. On an `Err` the writer is spent.
    fn add(&mut self, edit: &Edit) -> Result<(), AllocError>
        requires { (self.old.spent ≡ false) × (length self.old.log.entries < 2 ^ 53 - 1) }
        ensures { MatchResult result (λ _. self.new ≡ publishing (with_entry self.old.log edit.now) self.old.mark false) (λ _. self.new ≡ publishing self.old.log self.old.mark true) }
    {
        self.spent = true;
        let entry = Entry::new(self.alloc, edit.copy(self.alloc)?)?;
        if !self.head.add(edit) {
            drop(entry);
            return Err(AllocError);
        }
        let note = self.head.note.again();
        replace_with(
            &mut self.writer,
            (&self.rt, entry, note.again()),
            ruled::publish,
        )?;
        self.note = note;
        self.spent = false;
        Ok(())
    }

    /// Publishes an entry, at a cost that does not grow with the log. It answers `Full` exactly if the
    /// log has [`MOST`] entries. After `Memory` the log is as before, and the writer may only quit. It
    /// waits for readers that are in a look.
    pub fn publish(&mut self, edit: Edit) -> Result<(), (Edit, HubRefused)>
        requires { self.old.spent ≡ false }
        ensures ok { IfOk result (λ _. (self.new ≡ publishing (with_entry self.old.log edit) self.old.mark false) × (length self.old.log.entries < 2 ^ 53 - 1)) }
        ensures err { IfErr result (λ e. (e.0 ≡ edit) × Refuses self.old self.new e.1) }
    {
        if self.note.len() >= MOST {
            return Err((edit, HubRefused::Full));
        }
        match self.add(&edit) {
            Ok(()) => {
                drop(edit);
                Ok(())
            }
            Err(_) => Err((edit, HubRefused::Memory)),
        }
    }

    /// Seals the log. After an `Err` the log is as before, and the writer may only quit. It waits for
    /// readers that are in a look.
    pub fn seal(self) -> Result<SealedLog<R>, (HubWriter<R>, AllocError)>
        requires { self.spent ≡ false }
        ensures { MatchResult result (λ sealed. sealed ≡ with_seal self.log) (λ e. e.0 ≡ publishing self.log self.mark true) }
    {
        let HubWriter {
            rt,
            alloc,
            mut head,
            note,
            writer,
            mark,
            spent: _,
        } = self;
        let (writer, sealed) = seal_log(&rt, alloc, &mut head, writer);
        match sealed {
            Ok(front) => Ok(SealedLog::of(rt, head.note, front, writer)),
            Err(error) => {
                let writer = HubWriter {
                    rt,
                    alloc,
                    head,
                    note,
                    writer,
                    mark,
                    spent: true,
                };
                Err((writer, error))
            }
        }
    }

    /// Ends the log without a seal, which readers then find. They may still look at it, so that its
    /// memory is never given back. It does not allocate.
    pub fn quit(self) -> QuitNote
        ensures { result ≡ self.mark }
    {
        let HubWriter {
            rt,
            alloc: _,
            head: _head,
            note: _note,
            writer,
            mark,
            spent: _,
        } = self;
        let note = mark.store();
        leave_to_readers(rt, writer);
        note
    }
}

impl<R: Wait + Drop> Drop for HubWriter<R> {
    fn drop(self) {
        let _note = self.quit();
    }
}
