//! The text of a dispatch without its number.

ghost use Rattle.std.specs.Prelude.{◌≡◌, IfOk};
ghost use Rattle.std.specs.Arc.{arc_value};

use collections::Text;
use std::alloc::{AllocError, Global};
use std::marker::Model;
use std::sync::Arc;

/// What stands before and after a number in a text.
pub struct Parts {
    pub head: Text,
    pub tail: Text,
}

impl Drop for Parts {
    fn drop(self) {
        let Parts { head, tail } = self;
        drop(head);
        drop(tail);
    }
}

/// What stands before and after the sequence number of a dispatch (Gateway, Payload Structure). It is
/// the same for every session that is sent the dispatch, and all owners share it.
pub struct Envelope {
    parts: Arc<Parts>,
}

impl Drop for Envelope {
    fn drop(self) {
        let Envelope { parts } = self;
        drop(parts);
    }
}

impl Model for Envelope {
    ghost use Rattle.std.specs.Arc.{arc_value};
    ghost use Rattle.payload_text.specs.declared.envelope.Parts.{Parts};

    ghost Value = { Parts };

    ghost view = { λ e. arc_value e.parts };
}

impl Envelope {
    /// A text before a number and one after it.
    pub fn new(alloc: Global, head: Text, tail: Text) -> Result<Envelope, AllocError>
        ensures { IfOk result (λ envelope. envelope ≡ record { head = head; tail = tail }) }
    {
        Ok(Envelope {
            parts: Arc::new(alloc, Parts { head, tail })?,
        })
    }

    // One more owner.
    pub(crate) fn share(&self) -> Result<Arc<Parts>, AllocError>
        ensures { IfOk result (λ parts. arc_value parts ≡ self.now) }
    {
        Arc::try_clone(&self.parts)
    }
}
