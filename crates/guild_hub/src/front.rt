//! What the first entries of a log come to.

ghost use Rattle.std.specs.Prelude.{◌≡◌, ◌+◌, cond, IfOk, OnOk, OnErr};
ghost use Rattle.edit_apply.specs.Edits.{accepts, after, state_from};
ghost use Rattle.guild_hub.specs.Logs.{whole_record, accepted_from, accepted as accepted_in};
ghost use Rattle.guild_hub.specs.Trims.{spine_of, IsTrimmed};

use crate::shown::Shown;
use edit_apply::{judge, make};
use guild_model::Guild;
use log_entry::Entry;
use std::alloc::{AllocError, Global};
use std::collections::VecDeque;

/// The record after the first entries of a log, and how many of them were accepted.
pub struct Front {
    pub record: Guild,
    pub accepted: u64,
}

impl Drop for Front {
    fn drop(self) {
        let Front {
            record,
            accepted: _,
        } = self;
        drop(record);
    }
}

impl Front {
    /// Adds the entry that follows. A refused entry changes nothing, and neither does an `Err`.
    pub fn add(&mut self, alloc: Global, entry: &Entry) -> Result<(), AllocError>
        ensures record { OnOk result (self.new.record ≡ after self.old.record entry.now) }
        ensures accepted { OnOk result (self.new.accepted ≡ self.old.accepted + cond (accepts self.old.record entry.now) 1 0) }
        ensures kept { OnErr result (self.new ≡ self.old) }
    {
        let Some(more) = self.accepted.checked_add(1) else {
            return Err(AllocError);
        };
        if judge(&self.record, entry.edit()).is_err() {
            return Ok(());
        }
        make(alloc, &mut self.record, entry.copy(alloc)?)?;
        self.accepted = more;
        Ok(())
    }

    // Adds the entries that follow. On an `Err` only some of them are added.
    fn add_all(&mut self, alloc: Global, entries: &VecDeque<Entry>) -> Result<(), AllocError>
        ensures record { OnOk result (self.new.record ≡ state_from self.old.record entries.now.items) }
        ensures accepted { OnOk result (self.new.accepted ≡ self.old.accepted + accepted_from self.old.record entries.now.items) }
    {
        for place in 0..entries.len() {
            self.add(alloc, &entries[place])?;
        }
        Ok(())
    }
}

/// What all entries of a log come to, out of what is shown of it.
pub fn front_of(shown: &Shown, alloc: Global) -> Result<Front, AllocError>
    requires { IsTrimmed (spine_of shown.now) }
    ensures record { IfOk result (λ front. front.record ≡ whole_record shown.now.note) }
    ensures accepted { IfOk result (λ front. front.accepted ≡ accepted_in shown.now.note) }
{
    let mut front = Front {
        record: shown.front.record.copy(alloc)?,
        accepted: shown.front.accepted,
    };
    match front.add_all(alloc, &shown.entries) {
        Ok(()) => Ok(front),
        Err(error) => {
            drop(front);
            Err(error)
        }
    }
}
