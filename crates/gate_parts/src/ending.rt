//! How a part of a run ended.

/// How a part of a run ended.
#[derive(Drop)]
pub enum Ending<T> {
    /// It did its work, with this result.
    Ran(T),
    /// It found the stop flag set when the word came, and did nothing but end its passes.
    Stopped,
}
