//! What is told to one viewer, and what each dispatch makes of the view that a client holds.
#![tactic(auto)]

pub mod ends;
pub mod list_sync;
pub mod recipient;
pub mod thread_told;

pub use ends::{add_voice_end, voice_end};
pub use list_sync::add_list_sync;
pub use recipient::Recipient;
