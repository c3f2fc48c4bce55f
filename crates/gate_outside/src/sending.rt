//! What goes over a link.
use collections::text::Text;

/// What goes over a link: a text, or the code of a close.
#[derive(Drop)]
pub enum Sending {
    /// A text.
    Text(Text),
    /// The code of a close.
    Close(u16),
}
