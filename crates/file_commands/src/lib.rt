//! The commands over files, `run FILE` and `lift FILE`, over a house, and what they say if they do not come to
//! their end.
#![tactic(auto)]

mod complaint;
mod lifting;
mod playing;
mod refusing;
mod shown;
mod statuses;
mod words;

pub use complaint::{line_is, tell_lift, tell_memory, tell_no_text, tell_play, tell_words};
pub use lifting::{lift_file, lift_law};
pub use playing::play_file;
pub use refusing::refuse;
pub use shown::Shown;
pub use statuses::{BAD_WORDS, NO_MEMORY, lift_status, play_status};
pub use words::words_of;
