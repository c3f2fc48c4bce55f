//! What the history of a hub is made of. It exists in proofs alone.

use edit_apply::Edit;

/// An entry of the log, or the seal that ends it. No value of it is made.
#[derive(Drop)]
pub enum Item {
    /// An entry.
    Entry(Edit),
    /// The seal.
    Seal,
}
