//! The hubs of guilds, each with a writer and so many readers.

ghost use Rattle.std.specs.Prelude.{◌≡◌, ◌≤◌, ℕ, List, ◌∷◌, ◌++◌, [], length, All, IfOk, OnOk};
ghost use Rattle.guild_hub.specs.Sights.{Seeing};
ghost use Rattle.guild_hub.specs.Writes.{Publishing};
ghost use Rattle.run_stage.specs.Hubs.{Has, HasHubs, HasReaders, IsNewWriter};

use crate::dealing::take_next;
use guild_hub::{HubReader, HubWriter, hub};
use snowflake_id::Snowflake;
use std::alloc::{AllocError, Global};
use std::collections::VecDeque;
use std::sync::Wait;

/// The hubs of guilds, of which nobody has published or looked.
pub struct Hubs<R: Wait + Drop> {
    /// The writer of each hub beside its guild's id, in the order of the guilds.
    pub writers: Vec<(Snowflake, HubWriter<R>)>,
    /// So many lists, each with a reader of each hub beside its guild's id, in the order of the guilds.
    pub readers: VecDeque<Vec<(Snowflake, HubReader)>>,
}

// One call drops them, so that no crate above proves the drop of what they hold again.
impl<R: Wait + Drop> Drop for Hubs<R> {
    fn drop(self) {
        let Hubs { writers, readers } = self;
        drop(writers);
        drop(readers);
    }
}

// So many empty lists.
fn empty_lists(
    alloc: Global,
    count: u8,
) -> Result<VecDeque<Vec<(Snowflake, HubReader)>>, AllocError>
    ensures { IfOk result (λ lists. HasReaders count [] lists.items) }
{
    let mut lists = VecDeque::new(alloc);
    for _ in 0..count {
        lists.push_back(Vec::new(alloc))?;
    }
    Ok(lists)
}

// Adds one of the readers of a guild's hub to each list, which then goes to the end. On an `Err` a list
// may be missing.
fn add_to_each(
    lists: &mut VecDeque<Vec<(Snowflake, HubReader)>>,
    guild: Snowflake,
    readers: Vec<HubReader>,
) -> Result<(), AllocError>
    requires { length readers.items ≡ length lists.old.items }
    ensures many { OnOk result (length lists.new.items ≡ length lists.old.items) }
    ensures added { OnOk result ((had : List (ℕ × Seeing)) (one : Seeing) → All (Has had) lists.old.items → All (λ r. r ≡ one) readers.items
        → All (Has (had ++ (guild, one) ∷ [])) lists.new.items) }
{
    let mut left = VecDeque::from(readers);
    while let Some(reader) = left.pop_front() {
        let mut list = take_next(lists);
        list.push((guild, reader))?;
        lists.push_back(list)?;
    }
    Ok(())
}

impl<R: Wait + Drop> Hubs<R> {
    /// The writers and the lists of readers. It does not allocate.
    pub fn into_parts(
        self,
    ) -> (
        Vec<(Snowflake, HubWriter<R>)>,
        VecDeque<Vec<(Snowflake, HubReader)>>,
    )
        ensures { (result.0 ≡ self.writers) × (result.1 ≡ self.readers) }
    {
        let Hubs { writers, readers } = self;
        (writers, readers)
    }
}

impl<R: Wait + Copy + Drop> Hubs<R> {
    // No hubs yet, and so many lists for their readers.
    fn none(alloc: Global, places: u8) -> Result<Hubs<R>, AllocError>
        ensures writers { IfOk result (λ hubs. hubs.writers.items ≡ []) }
        ensures readers { IfOk result (λ hubs. HasReaders places hubs.writers.items hubs.readers.items) }
    {
        let readers = empty_lists(alloc, places)?;
        Ok(Hubs {
            writers: Vec::new(alloc),
            readers,
        })
    }

    // Opens the hub of a guild. On an `Err` some of its ends, and a list, may be missing.
    fn open_guild(
        &mut self,
        rt: R,
        alloc: Global,
        guild: Snowflake,
        places: u8,
    ) -> Result<(), AllocError>
        requires places { 1 ≤ places }
        requires readers { HasReaders places self.old.writers.items self.old.readers.items }
        ensures writer { OnOk result ((w : ℕ × Publishing) × IsNewWriter guild w × (self.new.writers.items ≡ self.old.writers.items ++ w ∷ [])) }
        ensures readers { OnOk result (HasReaders places self.new.writers.items self.new.readers.items) }
    {
        let (writer, readers) = hub(rt, alloc, guild, places)?;
        self.writers.push((guild, writer))?;
        add_to_each(&mut self.readers, guild, readers)?;
        Ok(())
    }

    // Opens the hubs of all guilds. On an `Err` some may be missing.
    fn open_all(
        &mut self,
        rt: R,
        alloc: Global,
        guilds: &[Snowflake],
        places: u8,
    ) -> Result<(), AllocError>
        requires places { 1 ≤ places }
        requires none { self.old.writers.items ≡ [] }
        requires readers { HasReaders places self.old.writers.items self.old.readers.items }
        ensures { OnOk result (HasHubs guilds.now places self.new.writers.items self.new.readers.items) }
    {
        for guild in guilds {
            self.open_guild(rt, alloc, *guild, places)?;
        }
        Ok(())
    }
}

/// Opens the hubs of these guilds, each with so many readers, of which nobody has published or looked. It
/// may wait.
///
/// # Errors
/// Out of memory, or a place at a hub that could not be had.
pub fn open_hubs<R: Wait + Copy + Drop>(
    rt: R,
    alloc: Global,
    guilds: &[Snowflake],
    places: u8,
) -> Result<Hubs<R>, AllocError>
    requires { 1 ≤ places }
    ensures { IfOk result (λ hubs. HasHubs guilds.now places hubs.writers.items hubs.readers.items) }
{
    let mut hubs = Hubs::none(alloc, places)?;
    match hubs.open_all(rt, alloc, guilds, places) {
        Ok(()) => Ok(hubs),
        Err(error) => {
            drop(hubs);
            Err(error)
        }
    }
}
