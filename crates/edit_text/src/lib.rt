//! Reads the lines of step files, and writes them.
#![tactic(auto)]

mod intents;
mod lift;
mod line;
mod reader;
mod reader_state;
mod ring_size;
mod step_name;
mod steps;
mod text;

pub use edit_fields::edits::name_of;
pub use edit_fields::{ChannelEditName, EditName, GuildEditName, LineFault, RoleMemberEditName};
pub use line::{FileKind, Line};
pub use reader::StepReader;
pub use reader_state::{MAX_LINE_BYTES, MAX_LINES};
pub use ring_size::{MAX_RING_BYTES, MAX_RING_ITEMS, MIN_RING_BYTES, RING_BYTES, RING_ITEMS};
