//! What a house has lent to a run.

ghost use Rattle.std.specs.Prelude.{◌≡◌, length};
ghost use Rattle.serve_stage.specs.Stages.{AreLent};

use crate::supply::Counts;
use serve_heads::ScriptFile;

/// What a house has lent to a run: the files of the scripts, and of each worker its door and its clock.
#[derive(Drop)]
pub struct Lent<S, D, C> {
    /// The files of the scripts, in order.
    pub files: Vec<ScriptFile<S>>,
    /// The doors of the workers, in order.
    pub doors: Vec<D>,
    /// The clocks of the workers, in order.
    pub clocks: Vec<C>,
}

impl<S, D, C> Lent<S, D, C> {
    /// How many scripts and workers there are.
    pub(crate) fn counts(&self) -> Counts
        requires { AreLent self.now }
        ensures { (result.scripts ≡ length self.now.files.items) × (result.workers ≡ length self.now.doors.items) }
    {
        Counts {
            scripts: self.files.len() as u8,
            workers: self.doors.len() as u8,
        }
    }
}
