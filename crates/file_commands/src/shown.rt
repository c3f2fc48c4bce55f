//! Words of the command, as they are said.
use std::fmt;

/// A word as it is said: in quotes, with control characters escaped, if it is empty or has some.
#[derive(Clone, Copy)]
pub struct Shown<'a>(pub &'a str);

impl fmt::Display for Shown<'_> {
    fn fmt<W: fmt::Write>(&self, f: &mut fmt::Formatter<W>) -> fmt::Result {
        if self.0.is_empty() || self.0.chars().any(char::is_control) {
            return write!(f, "{:?}", self.0);
        }
        f.write_str(self.0)
    }
}
