//! Room for what a house lends.

ghost use Rattle.std.specs.Prelude.{◌≡◌, IfOk};
ghost use Rattle.serve_run.specs.Parts.{HaveLoanRoom};

use crate::ends::Returned;
use std::alloc::{AllocError, Global};

/// Empty lists with room.
pub(crate) struct LoanRooms<S, D, C> {
    /// For what is lent.
    pub parts: Returned<S, D, C>,
    /// For the sources of files that are not served.
    pub sources: Vec<S>,
}

impl<S: Drop, D: Drop, C: Drop> LoanRooms<S, D, C> {
    /// Room for the sources of so many files, and for the doors and clocks of so many workers.
    ///
    /// # Errors
    /// Out of memory.
    pub(crate) fn make(
        alloc: Global,
        files: usize,
        workers: usize,
    ) -> Result<LoanRooms<S, D, C>, AllocError>
        ensures { IfOk result (HaveLoanRoom files workers) }
    {
        let first = Vec::with_capacity(alloc, files)?;
        let sources = Vec::with_capacity(alloc, files)?;
        let doors = Vec::with_capacity(alloc, workers)?;
        let clocks = Vec::with_capacity(alloc, workers)?;
        Ok(LoanRooms {
            parts: Returned {
                sources: first,
                doors,
                clocks,
            },
            sources,
        })
    }
}
