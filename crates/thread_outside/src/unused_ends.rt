//! The two lanes of an end in memory before its first call.
ghost use Rattle.std.specs.Prelude.{◌≡◌, [], IfOk};
ghost use Rattle.thread_outside.specs.Lanes.{new_ends};

use crate::ends::{Ends, joined_ends};
use std::alloc::{AllocError, Global};
use std::marker::Model;

/// The lanes of an end that took nothing and put nothing yet. A clause sees the lanes.
#[derive(Drop)]
pub(crate) struct UnusedEnds {
    ends: Ends,
}

impl Model for UnusedEnds {
    ghost use Rattle.std.specs.Prelude.{◌≡◌, []};
    ghost use Rattle.thread_outside.specs.Lanes.{LaneEnds};

    ghost Value = { LaneEnds };

    ghost view = { λ u. u.ends };

    ghost invariant = { λ u. (u.ends.came.taken ≡ []) × (u.ends.went.put ≡ []) };
}

impl UnusedEnds {
    // Two ends, of which each takes from the lane that the other puts into.
    pub(crate) fn joined(alloc: Global) -> Result<(UnusedEnds, UnusedEnds), AllocError>
        ensures { IfOk result (λ ends. (ends.0 ≡ new_ends ends.0.from ends.0.to) × (ends.1 ≡ new_ends ends.0.to ends.0.from)) }
    {
        let (near, far) = joined_ends(alloc)?;
        Ok((UnusedEnds { ends: near }, UnusedEnds { ends: far }))
    }

    // The lanes.
    pub(crate) fn into_ends(self) -> Ends
        ensures same { result ≡ self }
        ensures unused { (result.came.taken ≡ []) × (result.went.put ≡ []) }
    {
        self.ends
    }
}
