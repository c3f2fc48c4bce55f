//! What a hub shows its readers, and how an operation of the writer changes it.

ghost use Rattle.std.specs.Prelude.{◌≡◌, ◌<◌, ◌+◌, length, MatchResult, OnOk, OnErr, drop, take};
ghost use Rattle.guild_hub.specs.Trims.{spine_of, pushed, over};
ghost use Rattle.std.specs.VecDeque.{deque_len, deque_capacity};
ghost use Rattle.edit_apply.specs.Edits.{state_from};
ghost use Rattle.guild_hub.specs.Logs.{accepted_from};

use crate::front::Front;
use crate::note::Note;
use edit_apply::Edit;
use guild_model::Guild;
use left_right::Absorb;
use log_entry::Entry;
use std::alloc::{AllocError, Global};
use std::collections::{LinkedList, VecDeque};

/// The number of entries that a hub keeps.
pub const KEPT: usize = 4096;

/// What readers look at: the record after the entries that are no longer kept, how many of these were
/// accepted, the entries that are kept, and a note of the whole log.
pub struct Shown {
    pub front: Front,
    pub entries: VecDeque<Entry>,
    pub note: Note,
    pub alloc: Global,
}

impl Drop for Shown {
    fn drop(self) {
        let Shown {
            front,
            entries,
            note,
            alloc: _,
        } = self;
        drop(front);
        drop(entries);
        drop(note);
    }
}

/// What the writer does to both copies of what is shown.
#[derive(Drop)]
pub enum Op {
    /// Adds an entry, with which the log is as the note says.
    Add(Entry, Note),
    /// Seals the log, which then is as the note says.
    Seal(Note),
}

/// What both copies have in common. No value of it is made.
pub struct Spine {
    pub basis: Guild,
    pub accepted: u64,
    pub entries: LinkedList<Edit>,
    pub note: Note,
}

impl Absorb<Op> for Shown {
    ghost use Rattle.guild_hub.specs.Trims.{after_op, spine_of};

    type State = Spine;

    ghost state = { spine_of };

    ghost applied = { after_op };

    fn absorb_first(&mut self, operation: &Op, _other: &Shown) -> Result<(), AllocError> {
        match operation {
            Op::Add(entry, note) => self.push(entry.again()?, note.again()),
            Op::Seal(note) => {
                self.note = note.again();
                Ok(())
            }
        }
    }

    fn absorb_second(&mut self, operation: Op, _other: &Shown) -> Result<(), Op> {
        match operation {
            Op::Add(entry, note) => {
                if self.make_room().is_err() {
                    return Err(Op::Add(entry, note));
                }
                self.entries.push_back_reserved(entry);
                self.note = note;
            }
            Op::Seal(note) => self.note = note,
        }
        Ok(())
    }
}

impl Shown {
    // Adds an entry, and moves the oldest one into the record if there are then too many. An `Err`
    // changes nothing.
    fn push(&mut self, entry: Entry, note: Note) -> Result<(), AllocError>
        ensures { MatchResult result (λ _. spine_of self.new ≡ pushed (spine_of self.old) entry note) (λ _. spine_of self.new ≡ spine_of self.old) }
    {
        if let Err(error) = self.make_room() {
            drop(entry);
            return Err(error);
        }
        self.entries.push_back_reserved(entry);
        self.note = note;
        Ok(())
    }

    // Makes room for an entry, and moves the oldest one into the record if there are as many as are kept.
    // An `Err` changes nothing.
    fn make_room(&mut self) -> Result<(), AllocError>
        ensures room { OnOk result (deque_len self.new.entries < deque_capacity self.new.entries) }
        ensures note { self.new.note ≡ self.old.note }
        ensures moved { OnOk result ((self.new.front.record ≡ state_from self.old.front.record (take (over (length self.old.entries.items)) self.old.entries.items)) × (self.new.front.accepted ≡ self.old.front.accepted + accepted_from self.old.front.record (take (over (length self.old.entries.items)) self.old.entries.items)) × (self.new.entries.items ≡ drop (over (length self.old.entries.items)) self.old.entries.items)) }
        ensures kept { OnErr result (spine_of self.new ≡ spine_of self.old) }
    {
        self.entries.reserve(1)?;
        if self.entries.len() >= KEPT {
            return self.trim();
        }
        Ok(())
    }

    // Moves the oldest entry into the record. An `Err` changes nothing.
    fn trim(&mut self) -> Result<(), AllocError>
        requires { 0 < length self.old.entries.items }
        ensures same { self.new.note ≡ self.old.note }
        ensures moved { OnOk result ((self.new.front.record ≡ state_from self.old.front.record (take 1 self.old.entries.items)) × (self.new.front.accepted ≡ self.old.front.accepted + accepted_from self.old.front.record (take 1 self.old.entries.items)) × (self.new.entries.items ≡ drop 1 self.old.entries.items)) }
        ensures kept { OnErr result (self.new ≡ self.old) }
        ensures room { deque_len self.old.entries < deque_capacity self.old.entries → deque_len self.new.entries < deque_capacity self.new.entries }
    {
        self.front.add(self.alloc, &self.entries[0])?;
        drop(self.entries.pop_front());
        Ok(())
    }
}
