//! The laws of clients over any run, as functions whose contracts are the statements.

ghost use Rattle.client_session.specs.Law.{NewRepresents, StepsRepresent};

/// A client before its first connection represents one that keeps all dispatches that it reads.
pub fn new_represents()
    ensures { NewRepresents }
{}

/// After each step it does so still: what it holds of a guild is the fold of all dispatches that it
/// has read, in order.
pub fn steps_represent()
    ensures { StepsRepresent }
{}
