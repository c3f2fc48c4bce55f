//! The word by which all parts of a run begin.

use std::alloc::{AllocError, Global};
use std::sync::{Arc, Wait};
use std::time::Duration;
use wake_bell::Bell;

/// How many bytes a thread asks for before its part begins.
const ROOM: usize = 4 << 20;

/// A part that waits for the word looks for it again after so many milliseconds, if no ring woke it.
const REST_MS: u64 = 1000;

// Takes memory and gives it back, so that the heap of this thread grows by one call of the system. The C library
// grows it a page at a time otherwise, and no other thread of the process gets a page during such a call. If the
// memory is refused, that is how it grows.
fn make_room(alloc: Global) {
    drop(Vec::<u8>::with_capacity(alloc, ROOM));
}

/// The word by which all parts of a run begin. Each part has a share of it.
pub struct StartWord {
    alloc: Global,
    given: Arc<Bell, Global>,
}

impl Drop for StartWord {
    fn drop(self) {
        let StartWord { alloc: _, given } = self;
        drop(given);
    }
}

impl StartWord {
    /// A word that is not given.
    ///
    /// # Errors
    /// Out of memory.
    pub fn new(alloc: Global) -> Result<StartWord, AllocError> {
        // A first piece of this size comes from the system. Those after it come from the heaps.
        make_room(alloc);
        Ok(StartWord {
            alloc,
            given: Arc::new(alloc, Bell::new())?,
        })
    }

    /// Another share of the word.
    ///
    /// # Errors
    /// Out of memory.
    pub fn share(&self) -> Result<StartWord, AllocError> {
        Ok(StartWord {
            alloc: self.alloc,
            given: Arc::try_clone(&self.given)?,
        })
    }

    /// Gives the word: every part that waits for it begins. The call does not allocate.
    pub fn give(&self) {
        self.given.ring();
    }

    /// Waits until the word is given. Before that it makes the heap of its thread larger.
    pub fn wait<R: Wait>(&self, rt: &R) {
        make_room(self.alloc);
        for _ in rt.forever() {
            if self.given.heard() > 0 {
                return;
            }
            self.given.rest(rt, 0, Duration::from_millis(REST_MS));
        }
        unreachable!()
    }
}
