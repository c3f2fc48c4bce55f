//! The right of one sender to send at a post.
ghost use Rattle.std.specs.Prelude.{◌≡◌, ◌+◌, length};

use crate::marks::MarkSeat;
use crate::queue::QueuePass;
use std::marker::Model;

/// The right of one sender to send at its post. A clause sees it as its post, the sender's number,
/// what the sender has sent, and the mark that it stored when it ended, 0 before that.
#[derive(Drop)]
pub struct SendPass {
    pub(crate) pass: QueuePass,
    pub(crate) seat: MarkSeat,
    pub(crate) sender: u8,
    pub(crate) next: u64,
}

impl Model for SendPass {
    ghost use Rattle.edit_post.specs.Post.{Sender};
    ghost use Rattle.edit_post.specs.Inside.{sender_of, IsSender};

    ghost Value = { Sender };

    ghost view = { sender_of };

    ghost invariant = { IsSender };
}

impl SendPass {
    /// The sender at its post, from 0. It does not allocate.
    pub fn sender(&self) -> u8
        ensures { result ≡ self.now.sender }
    {
        self.sender
    }

    /// The number of the sender's next request, from 1. It does not allocate.
    pub fn next(&self) -> u64
        ensures { result ≡ length self.now.sent + 1 }
    {
        self.next
    }
}
