//! The entries of a log, one after another, for each session.

ghost use Rattle.std.specs.Prelude.{◌≡◌, ◌++◌, false, map, OnOk, MatchResult};
ghost use Rattle.guild_model.specs.Record.{Record};
ghost use Rattle.edit_apply.specs.declared.Edit.{Edit};
ghost use Rattle.edit_apply.specs.Edits.{after, state_from};
ghost use Rattle.edit_events.specs.Due.{due};
ghost use Rattle.worker_core.specs.Recipients.{Picks, viewer_of};
ghost use Rattle.world_law.specs.Keeping.{with_sessions};
ghost use Rattle.worker_core.specs.Looked.{kept_looked, kept_sends, kept_spends};
ghost use Rattle.worker_core.specs.Outputs.{all_written};
ghost use Rattle.worker_core.specs.Represents.{FaultBy};
ghost use Rattle.worker_core.specs.Telling.{TellsEach, FailsEach};

use crate::due::DueDispatches;
use crate::io::{Output, StepFault};
use crate::notes::Notes;
use crate::recipients::Recipients;
use edit_apply::{Edit, judge, make};
use guild_model::Guild;
use guild_replica::Replica;
use log_entry::Entry;
use session_core::Sessions;
use std::alloc::{AllocError, Global};

// What is worked out for one entry. The memory of the lists serves for the next one too.
struct Lists {
    notes: Notes,
    owed: DueDispatches,
}

impl Drop for Lists {
    fn drop(self) {
        let Lists { notes, owed } = self;
        drop(notes);
        drop(owed);
    }
}

impl Lists {
    // Empty lists. Does not allocate.
    fn none(alloc: Global) -> Lists {
        Lists {
            notes: Notes::none(alloc),
            owed: DueDispatches::none(alloc),
        }
    }
}

/// What an accepted entry owes, sent to each session.
fn tell_each(
    lists: &DueDispatches,
    recipients: &Recipients,
    sessions: &mut Sessions,
    out: &mut Vec<Output>,
) -> Result<(), StepFault>
    requires { Picks recipients.now.viewers.items recipients.now.whose.items (map viewer_of sessions.old.sessions) }
    ensures { (s : Record) (e : Edit) → Picks lists.now.told.items lists.now.whose.items (map (due s e) recipients.now.viewers.items)
        → MatchResult result (λ _. TellsEach s e sessions.old sessions.new out.old.items out.new.items) (FailsEach s e sessions.old) }
{
    let whose = recipients.whose.as_slice();
    for index in 0..whose.len() {
        lists.tell(whose[index], sessions, index, out)?;
    }
    Ok(())
}

/// The record after an entry. An entry that is refused changes nothing.
fn apply_one(alloc: Global, guild: &mut Guild, entry: &Edit) -> Result<(), AllocError>
    ensures { OnOk result (guild.new ≡ after guild.old entry.now) }
{
    if judge(guild, entry).is_err() {
        return Ok(());
    }
    make(alloc, guild, entry.copy(alloc)?)?;
    Ok(())
}

/// One entry: the record after it, and what it owes to each session. An entry that is refused
/// changes nothing.
fn enter(
    lists: &mut Lists,
    alloc: Global,
    replica: &mut Replica,
    entry: &Edit,
    recipients: &Recipients,
    sessions: &mut Sessions,
    out: &mut Vec<Output>,
) -> Result<(), StepFault>
    requires { Picks recipients.now.viewers.items recipients.now.whose.items (map viewer_of sessions.old.sessions) }
    ensures guild { OnOk result (replica.new.guild ≡ after replica.old.guild entry.now) }
    ensures told { MatchResult result (λ _. TellsEach replica.old.guild entry.now sessions.old sessions.new out.old.items out.new.items) (FailsEach replica.old.guild entry.now sessions.old) }
{
    if judge(replica.guild(), entry).is_err() {
        return Ok(());
    }
    lists.notes.update(alloc, replica, entry, recipients)?;
    replica.make(alloc, entry)?;
    lists
        .owed
        .update(alloc, replica, entry, &lists.notes, recipients)?;
    tell_each(&lists.owed, recipients, sessions, out)
}

/// Entries in their order.
pub fn look(
    alloc: Global,
    replica: &mut Replica,
    entries: &[Entry],
    recipients: &Recipients,
    sessions: &mut Sessions,
    out: &mut Vec<Output>,
) -> Result<(), StepFault>
    requires { Picks recipients.now.viewers.items recipients.now.whose.items (map viewer_of sessions.old.sessions) }
    ensures guild { OnOk result (replica.new.guild ≡ state_from replica.old.guild entries.now) }
    ensures sessions { OnOk result (sessions.new ≡ with_sessions (kept_looked replica.old.guild entries.now sessions.old.sessions) sessions.old) }
    ensures viewers { OnOk result (Picks recipients.now.viewers.items recipients.now.whose.items (map viewer_of sessions.new.sessions)) }
    ensures out { OnOk result (out.new.items ≡ out.old.items ++ all_written (kept_sends replica.old.guild entries.now sessions.old.sessions)) }
    ensures spent { MatchResult result (λ _. kept_spends replica.old.guild entries.now sessions.old.sessions ≡ false) (FaultBy (kept_spends replica.old.guild entries.now sessions.old.sessions)) }
{
    let mut lists = Lists::none(alloc);
    for entry in entries {
        let edit = entry.edit();
        enter(&mut lists, alloc, replica, edit, recipients, sessions, out)?;
    }
    Ok(())
}

/// Entries in their order, for the record alone.
pub fn apply_each(alloc: Global, guild: &mut Guild, entries: &[Entry]) -> Result<(), AllocError>
    ensures { OnOk result (guild.new ≡ state_from guild.old entries.now) }
{
    for entry in entries {
        apply_one(alloc, guild, entry.edit())?;
    }
    Ok(())
}
