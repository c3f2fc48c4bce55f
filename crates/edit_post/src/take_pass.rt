//! The right of the actor to take from a post.
ghost use Rattle.std.specs.Prelude.{◌≡◌, ◌<◌, ◌≤◌, [], None, All};
ghost use Rattle.edit_post.specs.QueueRule.{opening};
ghost use Rattle.edit_post.specs.MarkRule.{no_marks};
ghost use Rattle.edit_post.specs.Post.{new_taker};

use crate::marks::MarkSeat;
use crate::queue::QueuePass;
use std::marker::Model;

/// The right of the actor to take from its post. A clause sees it as its post, how many senders there
/// are, what was taken, how many takes found nothing, the mark that was found of each sender, 0 for
/// none, and each look at a mark.
pub struct TakePass {
    pub(crate) pass: QueuePass,
    pub(crate) seat: MarkSeat,
    pub(crate) senders: u8,
    pub(crate) counts: [u64; 16],
    pub(crate) found: [u64; 16],
}

impl Drop for TakePass {
    fn drop(self) {
        let TakePass {
            pass,
            seat,
            senders: _,
            counts: _,
            found: _,
        } = self;
        drop(pass);
        drop(seat);
    }
}

impl Model for TakePass {
    ghost use Rattle.edit_post.specs.Post.{Taker};
    ghost use Rattle.edit_post.specs.Inside.{taker_of, IsTaker};

    ghost Value = { Taker };

    ghost view = { taker_of };

    ghost invariant = { IsTaker };
}

impl TakePass {
    // The pass of a post without senders.
    pub(crate) fn new(pass: QueuePass, seat: MarkSeat) -> TakePass
        requires { (pass.me.hand ≡ None) × (pass.me.spare ≡ None) × (pass.me.view.client ≡ opening) × (seat.me ≡ (no_marks, [])) }
        ensures { result ≡ new_taker (record { queue = record { web = pass.web; heap = pass.heap }; marks = seat.table_id }) 0 }
    {
        TakePass {
            pass,
            seat,
            senders: 0,
            counts: [0; 16],
            found: [0; 16],
        }
    }

    // How many senders there are. Brings what the fields say of what was taken into the proof.
    pub(crate) fn senders(&self) -> u8
        ensures senders { (result ≡ self.now.senders) × (result ≤ 16) }
        ensures low { All (λ r. r.sender < self.now.senders) self.now.taken }
    {
        self.senders
    }
}
