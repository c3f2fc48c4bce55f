//! What the history of a mark is made of. It exists in proofs alone.

/// A step on the word of a mark, by its writer or by one of the readers. No value of it is made.
#[derive(Drop)]
pub enum MarkStep {
    /// The writer stored the mark.
    Store,
    /// A reader loaded the mark.
    Load,
}
