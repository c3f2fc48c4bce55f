//! A new hub: its writer and its readers.

ghost use Rattle.std.specs.Prelude.{◌≡◌, ◌≤◌, [], false, replicate, drop, IfOk};
ghost use Rattle.guild_model.specs.Record.{closed};
ghost use Rattle.guild_hub.specs.Sights.{seeing, unseen, watching};
ghost use Rattle.guild_hub.specs.Writes.{Opens, publishing};
ghost use Rattle.guild_hub.specs.Trims.{spine_of, IsTrimmed};
ghost use Rattle.guild_hub.specs.Rules.{knows};
ghost use Rattle.left_right.specs.Sides.{view};

use crate::front::Front;
use crate::head::Head;
use crate::mark::Mark;
use crate::note::Note;
use crate::reader::HubReader;
use crate::ruled;
use crate::ruled::LogWriter;
use crate::shown::Shown;
use crate::writer::HubWriter;
use guild_model::Guild;
use snowflake_id::Snowflake;
use std::alloc::{AllocError, Global};
use std::collections::VecDeque;
use std::sync::Wait;

// What a hub of an empty log shows.
fn empty(alloc: Global, guild: Snowflake, note: Note) -> Shown
    ensures { (result.front.record ≡ closed guild) × (result.front.accepted ≡ 0) × (result.entries.items ≡ []) × (result.note ≡ note) }
{
    Shown {
        front: Front {
            record: Guild::closed(alloc, guild),
            accepted: 0,
        },
        entries: VecDeque::new(alloc),
        note,
        alloc,
    }
}

// So many readers that have not looked.
fn readers_of(
    alloc: Global,
    writer: &mut LogWriter,
    note: &Note,
    mark: &Mark,
    places: u8,
) -> Result<Vec<HubReader>, AllocError>
    requires { view writer.old.desk.place ≡ knows note.now.hub [] }
    ensures same { (writer.new.desk.shown ≡ writer.old.desk.shown) × (drop writer.new.behind writer.new.log.items ≡ drop writer.old.behind writer.old.log.items) }
    ensures unseen { IfOk result (λ readers. readers.items ≡ replicate places (seeing (unseen note.now.hub) note.now [] (watching mark.now.seen.book []))) }
{
    let mut readers = Vec::new(alloc);
    for _ in 0..places {
        let reader = ruled::reader(writer)?;
        let watch = mark.watch()?;
        readers.push(HubReader::of(alloc, reader, note.again(), watch))?;
    }
    Ok(readers)
}

// Makes known to the writer which hub it is of, and makes the readers.
fn open_ends<R: Wait>(
    rt: &R,
    alloc: Global,
    writer: LogWriter,
    note: &Note,
    mark: &Mark,
    places: u8,
) -> (LogWriter, Result<Vec<HubReader>, AllocError>)
    requires none { drop writer.behind writer.log.items ≡ [] }
    requires note { writer.desk.shown.value.note ≡ note.now }
    ensures shown { IfOk result.1 (λ _. (result.0.desk.shown.value.note ≡ note.now) × IsTrimmed (spine_of result.0.desk.shown.value) × (drop result.0.behind result.0.log.items ≡ [])) }
    ensures unseen { IfOk result.1 (λ readers. readers.items ≡ replicate places (seeing (unseen note.now.hub) note.now [] (watching mark.now.seen.book []))) }
{
    let (mut writer, begun) = ruled::begin(rt, writer);
    if let Err(error) = begun {
        return (writer, Err(error));
    }
    let readers = readers_of(alloc, &mut writer, note, mark, places);
    (writer, readers)
}

// A log that shows the empty log of a note.
fn open_log(
    alloc: Global,
    guild: Snowflake,
    note: &Note,
    places: u8,
) -> Result<LogWriter, AllocError>
    requires places { 1 ≤ places }
    requires empty { (note.now.hub.guild ≡ guild) × (note.now.entries ≡ []) }
    ensures { IfOk result (λ w. (w.desk.shown.value.note ≡ note.now) × (drop w.behind w.log.items ≡ [])) }
{
    let first = empty(alloc, guild, note.again());
    let second = empty(alloc, guild, note.again());
    ruled::open(alloc, first, second, places)
}

// The ends of a hub whose log is shown.
fn ends_of<R: Wait + Drop>(
    rt: R,
    alloc: Global,
    head: Head,
    writer: LogWriter,
    mark: Mark,
    readers: Vec<HubReader>,
) -> (HubWriter<R>, Vec<HubReader>)
    requires empty { (head.note.entries ≡ []) × (head.note.sealed ≡ false) }
    requires shown { (writer.desk.shown.value.note ≡ head.note) × IsTrimmed (spine_of writer.desk.shown.value) × (drop writer.behind writer.log.items ≡ []) }
    ensures writer { result.0 ≡ publishing head.note mark.seen.book false }
    ensures readers { result.1.items ≡ readers.items }
{
    let writer = HubWriter::of(rt, alloc, head, writer, mark);
    (writer, readers)
}

/// Opens a hub of an empty log, with so many readers. It may wait.
///
/// # Errors
/// Out of memory, or a place that could not be had.
pub fn hub<R: Wait + Drop>(
    rt: R,
    alloc: Global,
    guild: Snowflake,
    places: u8,
) -> Result<(HubWriter<R>, Vec<HubReader>), AllocError>
    requires { 1 ≤ places }
    ensures { IfOk result (λ ends. Opens guild places ends.0 ends.1.items) }
{
    let mark = Mark::new(alloc)?;
    let head = Head::open(guild);
    let writer = open_log(alloc, guild, &head.note, places)?;
    let (writer, readers) = open_ends(&rt, alloc, writer, &head.note, &mark, places);
    match readers {
        Ok(readers) => Ok(ends_of(rt, alloc, head, writer, mark, readers)),
        Err(error) => {
            drop(writer.take(&rt));
            Err(error)
        }
    }
}
