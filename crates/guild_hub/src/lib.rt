//! A guild's log, which one writer publishes and readers look at without waiting. A hub keeps the
//! latest entries, and of those before them the record that they made.
#![tactic(auto)]

mod find;
mod front;
mod head;
mod item;
mod laws;
mod mark;
mod mark_step;
mod new_hub;
mod note;
mod reader;
mod ruled;
mod sealed;
mod shown;
mod writer;

pub use laws::seen_stays_a_part;
pub use mark::QuitNote;
pub use new_hub::hub;
pub use note::Note;
pub use reader::{HubReader, LookRefused, Looked, Rebased};
pub use sealed::SealedLog;
pub use shown::KEPT;
pub use writer::{HubRefused, HubWriter, MOST};
