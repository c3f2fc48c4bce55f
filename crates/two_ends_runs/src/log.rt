//! The log of a guild.

use collections::Seq;
use edit_apply::{Edit, apply};
use guild_model::Guild;
use log_entry::Entry;
use snowflake_id::Snowflake;
use std::alloc::{AllocError, Global};
use std::mem::replace;
use worker_core::Input;

/// A guild's log, of which the worker has looked at a front.
#[derive(Drop)]
pub struct Log {
    alloc: Global,
    guild: Snowflake,
    /// The entries at which the worker has not looked.
    unseen: Vec<Entry>,
    /// The guild after all edits.
    record: Guild,
}

impl Log {
    /// An empty log.
    pub fn new(alloc: Global, guild: Snowflake) -> Log {
        Log {
            alloc,
            guild,
            unseen: Vec::new(alloc),
            record: Guild::closed(alloc, guild),
        }
    }

    /// The guild.
    pub fn guild(&self) -> Snowflake {
        self.guild
    }

    /// The guild after all edits.
    pub fn record(&self) -> &Guild {
        &self.record
    }

    /// An edit comes to the log.
    pub fn push(&mut self, edit: Edit) -> Result<(), AllocError> {
        let entry = Entry::new(self.alloc, edit.copy(self.alloc)?)?;
        drop(apply(self.alloc, &mut self.record, edit)?);
        self.unseen.push(entry)?;
        Ok(())
    }

    /// A look of the worker at all entries at which it has not looked.
    pub fn look(&mut self) -> Input {
        let entries = replace(&mut self.unseen, Vec::new(self.alloc));
        Input::Look(self.guild, Seq::from_vec(entries))
    }
}
