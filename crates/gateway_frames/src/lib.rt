//! What a client and the gateway send one another, beside dispatches (Gateway, Gateway Events).
#![tactic(auto)]

pub mod close;
mod fault;
mod fields;
mod frame;
mod out;
mod out_text;
mod read;
mod shapes;
mod text;
mod values;

pub use fault::FrameFault;
pub use frame::{Ask, Find, Frame, Identify, Resume, VoiceAsk};
pub use guild_model::Status;
pub use out::Out;
