//! The writer and the readers of what a hub shows, under its rule.

ghost use Rattle.std.specs.Prelude.{◌≡◌, ◌++◌, ◌∷◌, [], true, false, ◌<◌, ◌≤◌, drop, length, IfOk, IfSome, MatchOption, MatchResult};
ghost use Rattle.left_right.specs.Sides.{view};
ghost use Rattle.guild_hub.specs.Logs.{GoesOn, base_of, record_after, with_entry, with_seal};
ghost use Rattle.guild_hub.specs.Trims.{spine_of, IsTrimmed};
ghost use Rattle.guild_hub.specs.Rules.{knows, Knows, stranger, FindsEntries};
ghost use Rattle.guild_hub.specs.Looks.{MayEnter};

use crate::find::{self, Basis, Found};
use crate::note::Note;
use crate::shown::{Op, Shown};
use atomic_table::{Join, Split};
use crossbeam_utils::rule::{Outcome, Protocol};
use left_right::reader::Reader;
use left_right::writer::Writer;
use log_entry::Entry;
use std::alloc::{AllocError, Global};
use std::collections::LinkedList;
use std::sync::Wait;

/// What a seat knows: which hub it is of, and the log that each of its steps found, if it is a reader's. No
/// value of it is made.
pub struct View {
    pub named: bool,
    pub hub: (u64, (u64, (u64, u64))),
    pub enters: LinkedList<Note>,
}

/// The rule of what a hub shows.
pub struct Trimmed;

impl Protocol<Shown, View> for Trimmed {
    ghost use Rattle.guild_hub.specs.Rules.{Keeps, stranger};

    ghost holds = { Keeps };

    ghost first = { stranger };
}

struct Show;

impl Outcome<Shown, View> for Show {
    ghost use Rattle.guild_hub.specs.Rules.{Shows};

    ghost then = { Shows };
}

struct See;

impl Outcome<Shown, View> for See {
    ghost use Rattle.guild_hub.specs.Rules.{Sees};

    ghost then = { Sees };
}

struct Tells;

impl Split<View> for Tells {
    ghost left = { λ v. v };

    ghost right = { λ v. v };
}

impl Join<View> for Tells {
    ghost use Rattle.guild_hub.specs.Rules.{stranger};

    ghost both = { λ v w. w };

    ghost spent = { stranger };
}

/// The writer of what is shown.
pub type LogWriter = Writer<Shown, Op, View, Trimmed>;

/// A reader of what is shown.
pub type LogReader = Reader<Shown, View, Trimmed>;

/// A writer that shows the same twice, with room for so many readers.
pub fn open(alloc: Global, first: Shown, second: Shown, places: u8) -> Result<LogWriter, AllocError>
    requires places { 1 ≤ places }
    requires same { spine_of first ≡ spine_of second }
    requires trimmed { IsTrimmed (spine_of first) }
    ensures { IfOk result (λ w. (w.desk.shown.value ≡ first) × (drop w.behind w.log.items ≡ []) × (view w.desk.place ≡ stranger)) }
{
    LogWriter::new(alloc, first, second, usize::from(places))
}

/// Shows what is shown once more, so that the writer's seat knows its hub.
pub fn begin<R: Wait>(rt: &R, writer: LogWriter) -> (LogWriter, Result<(), AllocError>)
    requires { drop writer.behind writer.log.items ≡ [] }
    ensures { IfOk result.1 (λ _. (view result.0.desk.place ≡ knows result.0.desk.shown.value.note.hub []) × (spine_of result.0.desk.shown.value ≡ spine_of writer.desk.shown.value) × IsTrimmed (spine_of result.0.desk.shown.value) × (drop result.0.behind result.0.log.items ≡ [])) }
{
    writer.publish_as::<Show, R>(rt)
}

// A reader that does not know its hub.
fn stranger_of(writer: &LogWriter) -> Result<LogReader, AllocError>
    ensures { IfOk result (λ r. (view r.place ≡ stranger) × (r.place.table_id ≡ writer.now.desk.place.table_id)) }
{
    writer.factory().reader()
}

/// A reader that knows its hub, as the writer does.
pub fn reader(writer: &mut LogWriter) -> Result<LogReader, AllocError>
    ensures same { (writer.new.desk.shown ≡ writer.old.desk.shown) × (drop writer.new.behind writer.new.log.items ≡ drop writer.old.behind writer.old.log.items) × (view writer.new.desk.place ≡ view writer.old.desk.place) }
    ensures view { IfOk result (λ r. view r.place ≡ view writer.old.desk.place) }
{
    let mut reader = stranger_of(writer)?;
    reader.learn::<Tells>(writer.tell::<Tells>());
    Ok(reader)
}

/// Publishes an entry, with which the log is as the note says.
pub fn publish<R: Wait>(
    writer: LogWriter,
    with: (&R, Entry, Note),
) -> (LogWriter, Result<(), AllocError>)
    requires none { drop writer.behind writer.log.items ≡ [] }
    requires note { with.2 ≡ with_entry writer.desk.shown.value.note with.1 }
    ensures { IfOk result.1 (λ _. (result.0.desk.shown.value.note ≡ with.entry.2) × IsTrimmed (spine_of result.0.desk.shown.value) × (drop result.0.behind result.0.log.items ≡ [])) }
{
    let (rt, entry, note) = with;
    let mut writer = writer;
    match writer.append(Op::Add(entry, note)) {
        Ok(()) => writer.publish_as::<Show, R>(rt),
        Err(operation) => {
            drop(operation);
            (writer, Err(AllocError))
        }
    }
}

/// Publishes the seal, with which the log is as the note says.
pub fn seal<R: Wait>(writer: LogWriter, with: (&R, Note)) -> (LogWriter, Result<(), AllocError>)
    requires none { drop writer.behind writer.log.items ≡ [] }
    requires note { with.1 ≡ with_seal writer.desk.shown.value.note }
    ensures { IfOk result.1 (λ _. result.0.desk.shown.value.note ≡ with.entry.1) }
{
    let (rt, note) = with;
    let mut writer = writer;
    match writer.append(Op::Seal(note)) {
        Ok(()) => writer.publish_as::<Show, R>(rt),
        Err(operation) => {
            drop(operation);
            (writer, Err(AllocError))
        }
    }
}

/// What is found after so many entries. The log has at least what the note tells. It waits for nobody.
pub fn look(reader: LogReader, with: (Global, u64, Note)) -> (LogReader, Result<Found, AllocError>)
    requires hub { Knows with.2.hub (view reader.place) }
    requires cursor { with.1 ≤ length with.2.entries }
    ensures hub { Knows with.2.hub (view result.0.place) }
    ensures enters { MatchResult result.1 (λ f. (view result.0.place).enters ≡ (view reader.place).enters ++ f.note ∷ []) (λ _. MayEnter (view reader.place).enters (view result.0.place).enters) }
    ensures later { IfOk result.1 (λ f. GoesOn with.2 f.note) }
    ensures entries { IfOk result.1 (λ f. MatchOption f.entries (with.1 < base_of f.note) (λ v. FindsEntries with.1 f.note v.items)) }
{
    let (alloc, cursor, least) = with;
    match reader.enter_as::<See>() {
        Ok(reading) => {
            let found = find::entries_after(reading.get(), alloc, cursor, &least);
            (reading.leave(), found)
        }
        Err(reader) => (reader, Err(AllocError)),
    }
}

/// The record, and the entries that follow it. The log has at least what the note tells. It waits for
/// nobody.
pub fn rebase(reader: LogReader, with: (Global, Note)) -> (LogReader, Result<Basis, AllocError>)
    requires hub { Knows with.1.hub (view reader.place) }
    ensures hub { Knows with.1.hub (view result.0.place) }
    ensures enters { MatchResult result.1 (λ b. (view result.0.place).enters ≡ (view reader.place).enters ++ b.note ∷ []) (λ _. MayEnter (view reader.place).enters (view result.0.place).enters) }
    ensures later { IfOk result.1 (λ b. GoesOn with.1 b.note) }
    ensures basis { IfOk result.1 (λ b. b.basis ≡ record_after b.note (base_of b.note)) }
    ensures entries { IfOk result.1 (λ b. b.entries.items ≡ drop (base_of b.note) b.note.entries) }
{
    let (alloc, least) = with;
    match reader.enter_as::<See>() {
        Ok(reading) => {
            let basis = find::basis_of(reading.get(), alloc, &least);
            (reading.leave(), basis)
        }
        Err(reader) => (reader, Err(AllocError)),
    }
}
