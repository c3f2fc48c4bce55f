//! The law of two ends, as one function whose contract is the statement.
ghost use Rattle.two_ends.specs.TwoEnds.{TwoEnds};

/// The law of two ends (Gateway, Connection Lifecycle; Resuming). A client that has a session of its worker holds the
/// fold of the session's dispatches up to its number, which at a settled number is the projection of one prefix of
/// each guild's log. Within a session its number does not fall, and no resume of it is refused as one beyond the last.
pub fn two_ends()
    ensures law { TwoEnds }
{}
