//! The log of a guild, of which the latest entries are kept.
ghost use Rattle.std.specs.Prelude.{◌≡◌, ◌-◌, List, ◌++◌, ◌∷◌, [], None, length, drop, IfOk, OnOk};
ghost use Rattle.edit_apply.specs.Edits.{verdict, applied, after};
ghost use Rattle.world_law.specs.World.{kept_entries, look_at};
ghost use Rattle.world_law.specs.Inputs.{Rebase};
ghost use Rattle.worker_core.specs.Outputs.{IsGiven};
ghost use Rattle.scenario.specs.Represents.{log_with, over, counted_in, added};

use collections::Seq;
use edit_apply::{Edit, judge, make};
use guild_model::{Guild, Verdict};
use log_entry::{Entry, shared_from};
use snowflake_id::Snowflake;
use std::alloc::{AllocError, Global};
use std::collections::VecDeque;
use std::marker::Model;
use worker_core::Input;

/// The number of entries that a log keeps.
const KEPT: usize = 4096;

/// The latest entries of a log, seen as a list.
pub struct Latest {
    entries: VecDeque<Entry>,
}

impl Drop for Latest {
    fn drop(self) {
        let Latest { entries } = self;
        drop(entries);
    }
}

impl Model for Latest {
    ghost use Rattle.std.specs.Prelude.{List};
    ghost use Rattle.edit_apply.specs.declared.Edit.{Edit};

    ghost Value = { List Edit };

    ghost view = { λ l. l.entries.items };
}

/// A guild's log: the record after all entries, how many they are, and the latest of them.
pub struct GuildLog {
    pub guild: Guild,
    pub count: usize,
    pub latest: Latest,
}

impl Drop for GuildLog {
    fn drop(self) {
        let GuildLog {
            guild,
            count: _,
            latest,
        } = self;
        drop(guild);
        drop(latest);
    }
}

// Makes an accepted edit, which stays as it is.
fn make_copy(alloc: Global, guild: &mut Guild, edit: &Edit) -> Result<(), AllocError>
    requires { verdict guild.old edit.now ≡ None }
    ensures { OnOk result (guild.new ≡ applied guild.old edit.now) }
{
    make(alloc, guild, edit.copy(alloc)?)
}

// Adds an entry to a record, and says why it is refused, if it is.
fn add_to(alloc: Global, guild: &mut Guild, edit: &Edit) -> Result<Option<Verdict>, AllocError>
    ensures answer { IfOk result (λ answer. answer ≡ verdict guild.old edit.now) }
    ensures guild { OnOk result (guild.new ≡ after guild.old edit.now) }
{
    let verdict = judge(guild, edit).err();
    if verdict.is_none() {
        make_copy(alloc, guild, edit)?;
    }
    Ok(verdict)
}

impl Latest {
    fn new(alloc: Global) -> Latest
        ensures { result ≡ [] }
    {
        Latest {
            entries: VecDeque::new(alloc),
        }
    }

    fn len(&self) -> usize
        ensures { result ≡ length self.now }
    {
        self.entries.len()
    }

    // Adds an entry.
    fn push(&mut self, entry: Entry) -> Result<(), AllocError>
        ensures { OnOk result (self.new ≡ self.old ++ entry ∷ []) }
    {
        self.entries.push_back(entry)?;
        Ok(())
    }

    // Removes the oldest entry, if there are as many as are kept.
    fn make_room(&mut self)
        ensures { self.new ≡ drop (over (length self.old)) self.old }
    {
        if self.entries.len() >= KEPT {
            drop(self.entries.pop_front());
        }
    }

    // The entries from a place on, with one more owner each.
    fn shared_from(&self, alloc: Global, from: usize) -> Result<Seq<Entry>, AllocError>
        ensures { IfOk result (λ shared. shared ≡ drop from self.now) }
    {
        let shared = shared_from(alloc, &self.entries, from)?;
        Ok(Seq::from_vec(shared))
    }
}

impl GuildLog {
    /// An empty log.
    pub fn new(alloc: Global, id: Snowflake) -> GuildLog
        ensures { result ≡ log_with id [] }
    {
        GuildLog {
            guild: Guild::closed(alloc, id),
            count: 0,
            latest: Latest::new(alloc),
        }
    }

    /// Adds an entry, and says why it is refused, if it is.
    pub fn add(&mut self, alloc: Global, edit: Edit) -> Result<Option<Verdict>, AllocError>
        ensures answer { IfOk result (λ answer. answer ≡ verdict self.old.guild edit) }
        ensures log { OnOk result (self.new ≡ added self.old edit) }
    {
        let entry = Entry::new(alloc, edit)?;
        let verdict = self.count_in(alloc, entry.edit())?;
        self.latest.push(entry)?;
        Ok(verdict)
    }

    // Adds an entry to all but the latest entries, among which there is room for it afterwards.
    fn count_in(&mut self, alloc: Global, edit: &Edit) -> Result<Option<Verdict>, AllocError>
        ensures answer { IfOk result (λ answer. answer ≡ verdict self.old.guild edit.now) }
        ensures log { OnOk result (self.new ≡ counted_in self.old edit.now) }
    {
        self.latest.make_room();
        let Some(count) = self.count.checked_add(1) else {
            return Err(AllocError);
        };
        self.count = count;
        add_to(alloc, &mut self.guild, edit)
    }

    /// How many entries come before those that are kept.
    pub fn base(&self) -> usize
        ensures { result ≡ self.now.count - kept_entries }
    {
        self.count.saturating_sub(KEPT)
    }

    /// The input of a look by a worker that was given this many entries: those that follow, or the record
    /// after all entries, if the look lags.
    pub fn input_after(
        &self,
        alloc: Global,
        guild: Snowflake,
        cursor: usize,
    ) -> Result<Input, AllocError>
        ensures { (es : List Edit) → self.now ≡ log_with guild es → IfOk result (λ input. IsGiven input (look_at guild es cursor)) }
    {
        let base = self.base();
        if cursor < base {
            return self.rebase(alloc, guild);
        }
        let entries = self.latest.shared_from(alloc, cursor - base)?;
        Ok(Input::Look(guild, entries))
    }

    // The input of a look that lags: no entry follows the record after all of them.
    fn rebase(&self, alloc: Global, guild: Snowflake) -> Result<Input, AllocError>
        ensures { (es : List Edit) → self.now ≡ log_with guild es → IfOk result (λ input. IsGiven input (Rebase guild es)) }
    {
        let record = self.guild.copy(alloc)?;
        Ok(Input::Rebase(guild, self.count as u64, record, Seq::new(alloc)))
    }
}
