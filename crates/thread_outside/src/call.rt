//! What a dial puts at its door.
ghost use Rattle.std.specs.Prelude.{◌≡◌};

use crate::unused_ends::UnusedEnds;
use std::marker::Model;

/// What a dial puts at its door: the far ends of a link that it opened, or nothing at its end. A
/// clause sees the number of the dial and the ends.
#[derive(Drop)]
pub struct Call {
    pub(crate) caller: u8,
    pub(crate) ends: Option<UnusedEnds>,
}

impl Model for Call {
    ghost use Rattle.thread_outside.specs.CallLists.{CallState};

    ghost Value = { CallState };

    ghost view = { λ c. record {
      caller = c.caller;
      ends = c.ends;
    } };
}

impl Call {
    // The ends, if there are some.
    pub(crate) fn into_ends(self) -> Option<UnusedEnds>
        ensures { result ≡ self.ends }
    {
        self.ends
    }
}
