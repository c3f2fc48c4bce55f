//! JSON values, owned or borrowed from their text: what bytes are as JSON, the fields of an object, and
//! an object's text.
#![tactic(auto)]

mod fields;
mod json_value;
mod node;
mod node_reading;
mod number;
mod object;
mod owned;
mod range;
mod reading;

pub use fields::{ViewFault, field_of, flag_of, given_of, id_from, id_of, number_of, text_of};
pub use json::{Scratch, Value as Node};
pub use json_value::JsonValue;
pub use node::{is_object, list_of};
pub use node_reading::node_of;
pub use object::write_object;
pub use reading::value_of;
