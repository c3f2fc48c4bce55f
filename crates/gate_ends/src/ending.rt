//! Parts that have ended, without what goes back to the house.

use crate::results::result_of;
use edit_post::SendPass;
use gate_parts::{Ending, WorkerDone};
use guild_hub::HubReader;
use snowflake_id::Snowflake;
use std::alloc::AllocError;
use worker_run::{WorkFault, WorkReport};

/// A script that has ended.
pub struct ScriptEnd<E: Drop> {
    /// How it ended.
    pub ending: Ending<Result<(), E>>,
    /// Its passes, which have ended.
    pub passes: Vec<SendPass>,
}

/// A worker that has ended.
pub struct WorkerEnd {
    /// How it ended.
    pub ending: Ending<Result<WorkReport, WorkFault>>,
    /// Its readers.
    pub readers: Vec<(Snowflake, HubReader)>,
    /// Its passes, which have ended.
    pub passes: Vec<SendPass>,
}

// One call drops it, so that no crate above proves the drop of what it holds again.
impl<E: Drop> Drop for ScriptEnd<E> {
    fn drop(self) {
        let ScriptEnd { ending, passes } = self;
        drop(ending);
        drop(passes);
    }
}

// As above.
impl Drop for WorkerEnd {
    fn drop(self) {
        let WorkerEnd {
            ending,
            readers,
            passes,
        } = self;
        drop(ending);
        drop(readers);
        drop(passes);
    }
}

impl<E: Drop> ScriptEnd<E> {
    ghost use Rattle.std.specs.Prelude.{◌≡◌, IfOk};
    ghost use Rattle.gate_ends.specs.Done.{HasSentAll};

    /// The passes of a script that has sent all.
    ///
    /// # Errors
    /// It has stopped, or ended by a fault.
    pub fn into_passes(self) -> Result<Vec<SendPass>, AllocError>
        ensures { IfOk result (λ passes. HasSentAll self × (passes ≡ self.passes)) }
    {
        let ScriptEnd { ending, passes } = self;
        match result_of(ending) {
            Ok(()) => Ok(passes),
            Err(error) => {
                drop(passes);
                Err(error)
            }
        }
    }
}

impl WorkerEnd {
    ghost use Rattle.std.specs.Prelude.{◌≡◌, IfOk};
    ghost use Rattle.gate_ends.specs.Done.{HasServed, worker_end};

    /// A worker whose part has ended, what goes back to the house, its door and its clock, and its notes.
    pub fn of<D, C, J>(done: WorkerDone<D, C, J>) -> (Self, D, C, J)
        ensures { (result.0 ≡ worker_end done) × (result.1 ≡ done.door) × (result.2 ≡ done.clock) × (result.3 ≡ done.notes) }
    {
        let WorkerDone {
            ending,
            door,
            clock,
            readers,
            passes,
            notes,
            seat,
        } = done;
        drop(seat);
        let end = WorkerEnd {
            ending,
            readers,
            passes,
        };
        (end, door, clock, notes)
    }

    /// The readers and the passes of a worker that has served.
    ///
    /// # Errors
    /// It has stopped, or ended by a fault.
    pub fn into_readers(self) -> Result<(Vec<(Snowflake, HubReader)>, Vec<SendPass>), AllocError>
        ensures { IfOk result (λ left. HasServed self × (left.0 ≡ self.readers) × (left.1 ≡ self.passes)) }
    {
        let WorkerEnd {
            ending,
            readers,
            passes,
        } = self;
        match result_of(ending) {
            Ok(_) => Ok((readers, passes)),
            Err(error) => {
                drop(readers);
                drop(passes);
                Err(error)
            }
        }
    }
}
