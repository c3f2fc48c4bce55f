//! The law over every run, as one function whose contract is the statement.
ghost use Rattle.world_law.specs.TheLaw.{TheLaw};

/// The law: what clients hold, which texts they are sent, what each edit of a log made for them, and how they
/// resume. It holds in every world that a list of steps makes, and of every worker that takes inputs.
pub fn the_law()
    ensures law { TheLaw }
{}
