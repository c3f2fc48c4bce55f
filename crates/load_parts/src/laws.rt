//! The law of parts by kind.
ghost use Rattle.load_parts.specs.ByKind.{SplitsByKind};

use gate_outside::clocks::Clock;
use std::sync::Wait;

/// Where actors, scripts, workers and clients, in this order, gave what they may give, each kind of what
/// they gave is, in order, what the parts of that kind may give.
pub fn split_by_kind<C: Clock, R: Wait + Copy + Drop>()
    ensures { SplitsByKind C R C.tale }
{}
