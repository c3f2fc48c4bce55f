//! A reader of a hub's log. It waits for nobody.

ghost use Rattle.std.specs.Prelude.{◌≡◌, [], true, IfOk, IfErr, OnErr};
ghost use mathlib.Core.List.{IsPrefix};
ghost use Rattle.guild_hub.specs.Logs.{GoesOn};
ghost use Rattle.guild_hub.specs.Marks.{EndsWithLoad};
ghost use Rattle.guild_hub.specs.Sights.{seeing, unseen, has_quit};
ghost use Rattle.guild_hub.specs.Looks.{Looks, Lags, Rebases, MayEnter};
ghost use Rattle.guild_hub.specs.Rules.{knows};
ghost use Rattle.left_right.specs.Sides.{view};

use crate::find::{Basis, Found, copies};
use crate::mark::{QuitNote, Watch};
use crate::note::Note;
use crate::ruled;
use crate::ruled::LogReader;
use core::mem::replace_with;
use guild_model::Guild;
use log_entry::Entry;
use std::alloc::{AllocError, Global};
use std::marker::Model;

/// What a look gives.
#[derive(Drop)]
pub struct Looked {
    /// The entries after the reader's cursor, in order.
    pub entries: Vec<Entry>,
    /// Whether the log had its seal at the step of the look.
    pub sealed: bool,
    /// Whether the writer had quit at a step of the look.
    pub quit: bool,
}

/// Why a look gives no entries.
#[derive(Drop)]
pub enum LookRefused {
    /// Some entries after the cursor are no longer kept.
    Lagged {
        /// How many of the first entries are not kept.
        base: u64,
        /// How many entries the reader has seen or passed over.
        cursor: u64,
    },
    /// Out of memory.
    Memory,
}

/// What a rebase gives, all of one step.
#[derive(Drop)]
pub struct Rebased {
    /// How many of the first entries are not kept.
    pub base: u64,
    /// The record after these.
    pub basis: Guild,
    /// The entries that follow, in order.
    pub entries: Vec<Entry>,
    /// Whether the log had its seal.
    pub sealed: bool,
}

/// A reader. A clause sees what it has seen since its last rebase, the log as it was at its last step, or
/// as it was told since, the log that each of its steps on the hub found, and what it knows of the mark by
/// which its writer quits.
pub struct HubReader {
    alloc: Global,
    reader: LogReader,
    note: Note,
    base: u64,
    cursor: u64,
    watch: Watch,
}

// One call drops it, so that no crate above proves the drop of each of its parts again.
impl Drop for HubReader {
    fn drop(self) {
        let HubReader {
            alloc: _,
            reader,
            note,
            base: _,
            cursor: _,
            watch,
        } = self;
        drop(reader);
        drop(note);
        drop(watch);
    }
}

impl Model for HubReader {
    ghost use Rattle.std.specs.Prelude.{◌≡◌, ◌≤◌, length};
    ghost use Rattle.left_right.specs.Sides.{view as knows_of};
    ghost use Rattle.guild_hub.specs.Rules.{Knows};
    ghost use Rattle.guild_hub.specs.Sights.{Seeing, seeing, part_of};

    ghost Value = { Seeing };

    ghost view = { λ r. seeing (part_of r.note r.base r.cursor) r.note (knows_of r.reader.place).enters r.watch };

    ghost invariant = { λ r. (r.base ≤ r.cursor) × (r.cursor ≤ length r.note.entries) × Knows r.note.hub (knows_of r.reader.place) };
}

impl HubReader {
    // A reader that has not looked.
    pub(crate) fn of(alloc: Global, reader: LogReader, note: Note, watch: Watch) -> HubReader
        requires { view reader.place ≡ knows note.hub [] }
        ensures { result ≡ seeing (unseen note.hub) note [] watch }
    {
        HubReader {
            alloc,
            reader,
            note,
            base: 0,
            cursor: 0,
            watch,
        }
    }

    /// Takes in a note of this hub: from now on a look or a rebase that succeeds reaches at least what the
    /// note tells. It does not allocate.
    pub fn learn(&mut self, note: &Note)
        requires { note.now.hub ≡ self.old.log.hub }
        ensures told { GoesOn note.now self.new.log }
        ensures later { GoesOn self.old.log self.new.log }
        ensures same { self.new ≡ record self.old { log = self.new.log } }
    {
        self.note = self.note.later(note);
    }

    /// Takes in that the writer has quit: from now on each look that succeeds tells so. It does not
    /// allocate.
    pub fn learn_quit(&mut self, note: &QuitNote)
        requires { note.now ≡ self.old.mark }
        ensures quit { has_quit self.new ≡ true }
        ensures steps { IsPrefix self.old.mark_steps self.new.mark_steps }
        ensures same { self.new ≡ record self.old { mark_steps = self.new.mark_steps } }
    {
        self.watch.learn(note);
    }

    /// Loads the mark and enters the hub, each once. It gives the entries after the cursor, and moves the
    /// cursor past them. It answers `Lagged` exactly if some of them are no longer kept. An `Err` leaves
    /// what was seen. It waits for nobody, and costs its own entries.
    pub fn look(&mut self) -> Result<Looked, LookRefused>
        ensures load { EndsWithLoad self.old.mark_steps self.new.mark_steps }
        ensures ok { IfOk result (λ l. Looks self.old l self.new) }
        ensures err { IfErr result (λ e. Lags self.old e self.new) }
    {
        let quit = self.watch.look();
        let with = (self.alloc, self.cursor, self.note.again());
        let Ok(found) = replace_with(&mut self.reader, with, ruled::look) else {
            return Err(LookRefused::Memory);
        };
        let Found { note, entries } = found;
        let Some(entries) = entries else {
            let base = note.base();
            self.note = note;
            return Err(LookRefused::Lagged {
                base,
                cursor: self.cursor,
            });
        };
        let Ok(entries) = copies(self.alloc, &entries) else {
            return Err(LookRefused::Memory);
        };
        let sealed = note.is_sealed();
        self.cursor = note.len();
        self.note = note;
        Ok(Looked {
            entries,
            sealed,
            quit,
        })
    }

    /// Enters the hub once, begins anew from the record after the entries that are not kept, and gives those
    /// that are. The cursor moves past them. An `Err` leaves all but that it may have entered. It waits for
    /// nobody.
    pub fn rebase(&mut self) -> Result<Rebased, AllocError>
        ensures ok { IfOk result (λ r. Rebases self.old r self.new) }
        ensures err { OnErr result ((self.new ≡ record self.old { enters = self.new.enters }) × MayEnter self.old.enters self.new.enters) }
    {
        let with = (self.alloc, self.note.again());
        let Basis {
            note,
            basis,
            entries,
        } = replace_with(&mut self.reader, with, ruled::rebase)?;
        let entries = copies(self.alloc, &entries)?;
        let base = note.base();
        let sealed = note.is_sealed();
        self.base = base;
        self.cursor = note.len();
        self.note = note;
        Ok(Rebased {
            base,
            basis,
            entries,
            sealed,
        })
    }
}
