//! The texts that a resume sends again.

ghost use Rattle.std.specs.Prelude.{◌≡◌, ◌+◌, ◌++◌, ◌≤◌, length, drop};
ghost use Rattle.std.specs.Iterator.{at_most};
ghost use Rattle.std.specs.Map.Iter.{TakesFirst, deref};

use payload_text::Payload;
use std::marker::Model;

/// The texts to send again, in order. A clause sees the list of those that are left.
#[derive(Drop)]
pub struct After<'a> {
    front: &'a [Payload],
    back: &'a [Payload],
}

impl<'a> Model for After<'a> {
    ghost use Rattle.std.specs.Prelude.{ℕ, List, ◌++◌};

    ghost Value = { List (List ℕ) };

    ghost view = { λ a. a.front.now ++ a.back.now };
}

impl<'a> After<'a> {
    // The texts of two slices without the first of them.
    pub(crate) fn from(front: &'a [Payload], back: &'a [Payload], skipped: usize) -> After<'a>
        requires { skipped ≤ length front.now + length back.now }
        ensures { result ≡ drop skipped (front.now ++ back.now) }
    {
        if skipped < front.len() {
            After {
                front: &front[skipped..],
                back,
            }
        } else {
            After {
                front: &[],
                back: &back[skipped - front.len()..],
            }
        }
    }
}

impl<'a> Iterator for After<'a> {
    type Item = &'a Payload;

    ghost next_gives = { TakesFirst deref };

    ghost remaining = { λ left. at_most (length left) };

    fn next(&mut self) -> Option<&'a Payload> {
        if self.front.is_empty() {
            self.front = self.back;
            self.back = &[];
        }
        let (text, later) = self.front.split_first()?;
        self.front = later;
        Some(text)
    }
}
