//! The law of parts by kind.
ghost use Rattle.serve_parts.specs.ByKind.{SplitsByKind};

use gate_outside::clocks::Clock;
use gate_outside::doors::Door;
use gate_outside::streams::Source;
use std::sync::Wait;

/// Where actors, scripts and workers, in this order, gave what they may give, each kind of what they gave
/// is, in order, what the parts of that kind may give.
pub fn split_by_kind<S: Source, D: Door, C: Clock, R: Wait + Drop>()
    ensures { SplitsByKind S D C R S.left S.faults D.tale D.faults C.tale }
{}
