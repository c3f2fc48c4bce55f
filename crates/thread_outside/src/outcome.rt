//! What a thread of a team gives back.

/// What a thread gives back: what its task gave, or the task where it was not run.
#[derive(Drop)]
pub enum Outcome<T, D> {
    /// What the task gave.
    Ran(D),
    /// The task, which was not run.
    Back(T),
}
