//! What the heads of the files so far have given.
ghost use Rattle.std.specs.Prelude.{◌≡◌, ◌++◌, ◌∷◌, [], fold, IfOk, OnOk};
ghost use Rattle.serve_heads.specs.Guilds.{with_guild};
ghost use Rattle.serve_heads.specs.Gathered.{IsNew, AddsHead};

use file_script::{FileHead, FileScript};
use indexmap::IndexSet;
use session_core::Bot;
use snowflake_id::Snowflake;
use std::alloc::{AllocError, Global};

/// The scripts that follow the heads of the files so far, and what these heads declare.
#[derive(Drop)]
pub struct Gathered {
    /// The scripts, in the order of the files.
    pub scripts: Vec<FileScript>,
    /// The bots, in the order of the files and their lines, as often as they stand there.
    pub bots: Vec<Bot>,
    /// The guilds, each once, in the order in which they first came.
    pub guilds: IndexSet<u64>,
}

// Adds the guilds that do not stand there yet.
fn add_guilds(index: &mut IndexSet<u64>, guilds: &[Snowflake]) -> Result<(), AllocError>
    ensures { OnOk result (index.new.keys ≡ fold with_guild index.old.keys guilds.now) }
{
    for guild in guilds {
        index.insert(guild.0)?;
    }
    Ok(())
}

/// The guilds of an index, in its order.
pub fn guilds_in(alloc: Global, index: &IndexSet<u64>) -> Result<Vec<Snowflake>, AllocError>
    ensures { IfOk result (λ guilds. guilds.items ≡ index.now.keys) }
{
    index.iter().map(|&id| Snowflake(id)).collect(alloc)
}

impl Gathered {
    /// Before the first file.
    pub fn new(alloc: Global) -> Gathered
        ensures { IsNew result }
    {
        Gathered {
            scripts: Vec::new(alloc),
            bots: Vec::new(alloc),
            guilds: IndexSet::new(alloc),
        }
    }

    /// Adds the head of a file.
    pub fn add_head(&mut self, head: FileHead) -> Result<(), AllocError>
        ensures { OnOk result (AddsHead head self.old self.new) }
    {
        let FileHead {
            mut declared,
            script,
        } = head;
        self.scripts.push(script)?;
        self.bots.append(&mut declared.bots)?;
        add_guilds(&mut self.guilds, &declared.guilds)?;
        Ok(())
    }
}
