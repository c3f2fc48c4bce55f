//! What a reader takes from what a hub shows. It shares the entries, so that it leaves soon.

ghost use Rattle.std.specs.Prelude.{◌≡◌, ◌<◌, ◌≤◌, drop, length, IfOk, MatchOption};
ghost use Rattle.guild_hub.specs.Logs.{GoesOn, base_of, record_after};
ghost use Rattle.guild_hub.specs.Trims.{spine_of, IsTrimmed};
ghost use Rattle.guild_hub.specs.Rules.{FindsEntries};

use crate::note::Note;
use crate::shown::Shown;
use guild_model::Guild;
use log_entry::{Entry, shared_from};
use std::alloc::{AllocError, Global};

/// The log at the step of a look, and the entries after the cursor, if they are all still kept.
#[derive(Drop)]
pub struct Found {
    pub note: Note,
    pub entries: Option<Vec<Entry>>,
}

/// The log at the step of a rebase, the record after the entries that are no longer kept, and those
/// that are.
#[derive(Drop)]
pub struct Basis {
    pub note: Note,
    pub basis: Guild,
    pub entries: Vec<Entry>,
}

// The note of what is shown. A log that is shown is never behind what was told of it, so the error is
// not met.
fn note_of(shown: &Shown, least: &Note) -> Result<Note, AllocError>
    requires { shown.now.note.hub ≡ least.now.hub }
    ensures { IfOk result (λ n. (n ≡ shown.now.note) × GoesOn least.now n) }
{
    if least.is_within(&shown.note) {
        Ok(shown.note.again())
    } else {
        Err(AllocError)
    }
}

/// The entries after the cursor, and nothing exactly if some of them are no longer kept.
pub fn entries_after(
    shown: &Shown,
    alloc: Global,
    cursor: u64,
    least: &Note,
) -> Result<Found, AllocError>
    requires hub { shown.now.note.hub ≡ least.now.hub }
    requires trimmed { IsTrimmed (spine_of shown.now) }
    requires cursor { cursor ≤ length least.now.entries }
    ensures note { IfOk result (λ f. f.note ≡ shown.now.note) }
    ensures later { IfOk result (λ f. GoesOn least.now f.note) }
    ensures entries { IfOk result (λ f. MatchOption f.entries (cursor < base_of f.note) (λ v. FindsEntries cursor f.note v.items)) }
{
    let note = note_of(shown, least)?;
    let base = note.base();
    if cursor < base {
        return Ok(Found {
            note,
            entries: None,
        });
    }
    let entries = shared_from(alloc, &shown.entries, (cursor - base) as usize)?;
    Ok(Found {
        note,
        entries: Some(entries),
    })
}

/// The record after the entries that are no longer kept, and those that are.
pub fn basis_of(shown: &Shown, alloc: Global, least: &Note) -> Result<Basis, AllocError>
    requires hub { shown.now.note.hub ≡ least.now.hub }
    requires trimmed { IsTrimmed (spine_of shown.now) }
    ensures note { IfOk result (λ b. b.note ≡ shown.now.note) }
    ensures later { IfOk result (λ b. GoesOn least.now b.note) }
    ensures basis { IfOk result (λ b. b.basis ≡ record_after b.note (base_of b.note)) }
    ensures entries { IfOk result (λ b. b.entries.items ≡ drop (base_of b.note) b.note.entries) }
{
    let note = note_of(shown, least)?;
    let entries = shared_from(alloc, &shown.entries, 0)?;
    Ok(Basis {
        note,
        basis: shown.front.record.copy(alloc)?,
        entries,
    })
}

/// Entries of one's own that are equal to these: to count their owners, no thread waits for another.
pub fn copies(alloc: Global, entries: &[Entry]) -> Result<Vec<Entry>, AllocError>
    ensures { IfOk result (λ v. v.items ≡ entries.now) }
{
    let mut copies = Vec::with_capacity(alloc, entries.len())?;
    for entry in entries {
        copies.push(Entry::new(alloc, entry.copy(alloc)?)?)?;
    }
    Ok(copies)
}
