//! A text, of which a clause sees the bytes.

ghost use Rattle.std.specs.Prelude.{◌≡◌, IfOk, length, string_bytes, []};
ghost use Rattle.std.specs.Str.{bytes_eq};

use arrayvec::ArrayString;
use std::alloc::{AllocError, Global};
use std::marker::Model;

// Short texts are most of the texts of an edit, so they lie in the value itself.
#[derive(Drop)]
pub(crate) enum Kept {
    Short(ArrayString<16>),
    Long(String),
}

/// A text, seen as its bytes in UTF-8. One of up to 16 bytes needs no memory of its own.
pub struct Text {
    kept: Kept,
}

impl Drop for Text {
    fn drop(self) {
        let Text { kept } = self;
        drop(kept);
    }
}

impl Model for Text {
    ghost use Rattle.std.specs.Prelude.{List, ℕ};
    ghost use Rattle.collections.specs.Texts.{bytes_of};

    ghost Value = { List ℕ };

    ghost view = { λ t. bytes_of t.kept };
}

impl Text {
    /// A text of its own with these bytes.
    pub fn new(alloc: Global, text: &str) -> Result<Text, AllocError>
        ensures { IfOk result (λ t. t ≡ text.now) }
    {
        if let Ok(short) = ArrayString::from(text) {
            return Ok(Text {
                kept: Kept::Short(short),
            });
        }
        let long = String::from_str(alloc, text)?;
        Ok(Text::from_string(long))
    }

    /// The text without bytes, which does not allocate.
    pub fn empty() -> Text
        ensures { result ≡ [] }
    {
        Text {
            kept: Kept::Short(ArrayString::new()),
        }
    }

    /// The text of a string, which is moved.
    pub fn from_string(text: String) -> Text
        ensures { result ≡ string_bytes text }
    {
        Text {
            kept: Kept::Long(text),
        }
    }

    /// The text.
    pub fn as_str(&self) -> &str
        ensures { result.now ≡ self.now }
    {
        match &self.kept {
            Kept::Short(text) => text.as_str(),
            Kept::Long(text) => text.as_str(),
        }
    }

    /// Removes all bytes. It does not allocate.
    pub fn clear(&mut self)
        ensures { self.new ≡ [] }
    {
        match &mut self.kept {
            Kept::Short(text) => text.clear(),
            Kept::Long(text) => text.clear(),
        }
    }

    /// How many bytes there are.
    pub fn len(&self) -> usize
        ensures { result ≡ length self.now }
    {
        self.as_str().len()
    }

    /// A copy of the text.
    pub fn copy(&self, alloc: Global) -> Result<Text, AllocError>
        ensures { IfOk result (λ t. t ≡ self.now) }
    {
        Text::new(alloc, self.as_str())
    }

    /// Whether the text has these bytes.
    pub fn is(&self, other: &str) -> bool
        ensures { result ≡ bytes_eq self.now other.now }
    {
        self.as_str() == other
    }
}
