//! The post itself: its queue of requests, and its marks, by which senders end.
ghost use Rattle.std.specs.Prelude.{◌≡◌, ◌≢◌, ℕ, ◌+◌, ◌^◌, ◌<◌, ◌≤◌, ◌↔◌, ◌∷◌, ◌++◌, [], length, slice_index, slice_get, Some, Err, MatchOption, MatchResult, IsTrue, IfOk, IfSome};
ghost use Rattle.edit_post.specs.declared.send_refused.SendRefused.TheVariants.{Spent};
ghost use Rattle.edit_post.specs.Requests.{requests_of};
ghost use Rattle.edit_post.specs.Merge.{Merge};
ghost use Rattle.edit_post.specs.Post.{new_sender, new_taker, after_send, after_end, after_take, after_empty_take, after_looks, looked, mark_of, HasEnded, FoundEmpty, NotStored, ended_lists, with_one};

use crate::marks::{self, Marks};
use crate::queue::{self, Queue};
use crate::request::Request;
use crate::send_pass::SendPass;
use crate::send_refused::SendRefused;
use crate::take_pass::TakePass;
use std::alloc::{AllocError, Global};
use std::marker::Model;
use std::sync::Wait;
use wake_bell::Bell;

/// The most requests of a sender.
const MOST_REQUESTS: u64 = 1 << 57;

/// A queue of requests from up to 16 senders to one actor. Threads share it by reference, and each
/// call takes the pass of the thread that makes it. A clause sees it as its name: a pass is of this
/// post exactly if it has the same name. It has a bell, which each send and each end rings.
pub struct Post<R: Drop> {
    rt: R,
    queue: Queue,
    marks: Marks,
    bell: Bell,
}

impl<R: Drop> Model for Post<R> {
    ghost use Rattle.std.specs.Prelude.{◌≡◌};
    ghost use Rattle.edit_post.specs.Post.{PostId};

    ghost Value = { PostId };

    ghost view = { λ p. record { queue = p.queue; marks = p.marks.shared.table_id } };

    ghost invariant = { λ p. p.marks.shared.table_id.words ≡ 16 };
}

impl<R: Drop> Post<R> {
    /// An empty post for so many senders, the pass of each in order, and the actor's pass.
    ///
    /// # Errors
    /// Out of memory.
    pub fn make(
        rt: R,
        alloc: Global,
        senders: u8,
    ) -> Result<(Post<R>, Vec<SendPass>, TakePass), AllocError>
        requires { (1 ≤ senders) × (senders ≤ 16) }
        ensures taker { IfOk result (λ r. r.2 ≡ new_taker r.0 senders) }
        ensures senders { IfOk result (λ r. (length r.1.items ≡ senders) × ((p : ℕ) → p < senders → slice_get r.1.items p ≡ Some (new_sender r.0 p))) }
    {
        let (queue, pass) = queue::open(alloc)?;
        let (marks, seat) = match marks::open(alloc) {
            Ok(opened) => opened,
            Err(error) => {
                queue.destroy();
                return Err(error);
            }
        };
        let post = Post {
            rt,
            queue,
            marks,
            bell: Bell::new(),
        };
        let mut taker = TakePass::new(pass, seat);
        let mut passes = Vec::new(alloc);
        for sender in 0..senders {
            // Only the loop's invariant speaks of the number.
            let _ = sender;
            passes.push(post.admit(&mut taker))?;
        }
        Ok((post, passes, taker))
    }

    // Makes a pass for the next sender.
    fn admit(&self, taker: &mut TakePass) -> SendPass
        requires post { taker.old.post ≡ self.now }
        requires room { taker.old.senders < 16 }
        ensures taker { taker.new ≡ with_one taker.old }
        ensures sender { result ≡ new_sender self.now taker.old.senders }
    {
        let pass = queue::admit(&self.queue, &mut taker.pass);
        let seat = marks::admit(&self.marks, &mut taker.seat);
        let sender = taker.senders;
        taker.senders += 1;
        SendPass {
            pass,
            seat,
            sender,
            next: 1,
        }
    }

    /// The bell at which the actor rests while nothing comes.
    pub fn bell(&self) -> &Bell {
        &self.bell
    }

    /// Ends a pass: stores its sender's mark, which is how many requests it sent, and one more. It
    /// does not allocate.
    pub fn end(&self, pass: &mut SendPass)
        requires post { pass.old.post ≡ self.now }
        requires open { pass.old.mark ≡ 0 }
        ensures { pass.new ≡ after_end pass.old }
    {
        let sender = usize::from(pass.sender);
        marks::store(&self.marks, &mut pass.seat, sender, pass.next);
        self.bell.ring();
    }

    // Looks at the mark of one sender, if it was not found before. True exactly if it is found now
    // and names as many requests as were taken.
    fn has_ended(&self, pass: &mut TakePass, sender: usize) -> bool
        requires post { pass.old.post ≡ self.now }
        requires sender { sender < 16 }
        ensures same { (pass.new.post ≡ pass.old.post) × (pass.new.senders ≡ pass.old.senders) × (pass.new.taken ≡ pass.old.taken) × (pass.new.empty_takes ≡ pass.old.empty_takes) }
        ensures others { (p : ℕ) → p ≢ sender → slice_index pass.new.found p ≡ slice_index pass.old.found p }
        ensures kept { slice_index pass.old.found sender ≢ 0 → (pass.new.looks ≡ pass.old.looks) × (slice_index pass.new.found sender ≡ slice_index pass.old.found sender) }
        ensures looked { slice_index pass.old.found sender ≡ 0 → pass.new.looks ≡ pass.old.looks ++ (sender, slice_index pass.new.found sender) ∷ [] }
        ensures unstored { slice_index pass.new.found sender ≡ 0 → NotStored sender pass.new.looks }
        ensures ended { IsTrue result ↔ (slice_index pass.new.found sender ≡ mark_of (requests_of sender pass.new.taken)) }
    {
        if pass.found[sender] == 0 {
            pass.found[sender] = marks::find(&self.marks, &mut pass.seat, sender);
        }
        let found = pass.found[sender];
        found > 0 && found - 1 == pass.counts[sender]
    }

    /// Whether every sender has ended and all its requests were taken. The call looks at the mark of
    /// each sender whose mark was not found before. It is true exactly if every mark is found then and
    /// names as many requests as were taken of its sender. It does not allocate.
    pub fn ended(&self, pass: &mut TakePass) -> bool
        requires post { pass.old.post ≡ self.now }
        ensures looks { pass.new ≡ after_looks pass.old pass.new.found }
        ensures kept { (p : ℕ) → slice_index pass.old.found p ≢ 0 → slice_index pass.new.found p ≡ slice_index pass.old.found p }
        ensures others { (p : ℕ) → pass.old.senders ≤ p → slice_index pass.new.found p ≡ slice_index pass.old.found p }
        ensures unstored { (p : ℕ) → p < pass.old.senders → slice_index pass.new.found p ≡ 0 → NotStored p (pass.old.looks ++ looked (p + 1) pass.old.found pass.new.found) }
        ensures ended { IsTrue result ↔ HasEnded pass.new }
        ensures merge { IsTrue result → Merge (ended_lists pass.new) pass.new.taken }
    {
        let mut all = true;
        for sender in 0..pass.senders() {
            if !self.has_ended(pass, usize::from(sender)) {
                all = false;
            }
        }
        all
    }
}

impl<R: Wait + Drop> Post<R> {
    /// Sends a request, which has the pass's sender and its next number. It allocates only what the
    /// queue allocates.
    ///
    /// # Errors
    /// `Spent` exactly if the sender has sent 2^57 requests, and `Memory`. Both hand the request back
    /// and leave the pass as it was.
    pub fn send(&self, pass: &mut SendPass, request: Request) -> Result<(), (Request, SendRefused)>
        requires post { pass.old.post ≡ self.now }
        requires open { pass.old.mark ≡ 0 }
        requires next { (request.sender ≡ pass.old.sender) × (request.number ≡ length pass.old.sent + 1) }
        ensures sent { MatchResult result (λ _. pass.new ≡ after_send pass.old request) (λ back. (back.0 ≡ request) × (pass.new ≡ pass.old)) }
        ensures spent { (result ≡ Err (request, Spent)) ↔ (2 ^ 57 ≤ length pass.old.sent) }
    {
        if pass.next > MOST_REQUESTS {
            return Err((request, SendRefused::Spent));
        }
        match queue::send(&self.rt, &self.queue, &mut pass.pass, request) {
            Ok(()) => {
                pass.next += 1;
                self.bell.ring();
                Ok(())
            }
            Err(request) => Err((request, SendRefused::Memory)),
        }
    }

    /// Removes the request at the front of the queue. `None` only if the queue was empty at one step
    /// of this call; the pass counts such calls. The requests of each sender come in order, numbered
    /// from 1 without a gap. It does not allocate.
    pub fn take(&self, pass: &mut TakePass) -> Option<Request>
        requires post { pass.old.post ≡ self.now }
        ensures taken { MatchOption result ((pass.new ≡ after_empty_take pass.old) × FoundEmpty pass.new) (λ r. pass.new ≡ after_take pass.old r) }
        ensures next { IfSome result (λ r. (r.sender < pass.old.senders) × (r.number ≡ length (requests_of r.sender pass.old.taken) + 1)) }
    {
        let found = queue::take(&self.rt, &self.queue, &mut pass.pass);
        if let Some(request) = &found {
            pass.counts[usize::from(request.sender)] = request.number;
        }
        found
    }

    /// Settles with a sender: the mark that was found of it is the mark that it stored, and what was
    /// taken of it is what it sent, whole, in order, each request once.
    pub fn settle(&self, taken: &mut TakePass, sent: SendPass)
        requires post { (taken.old.post ≡ self.now) × (sent.post ≡ self.now) }
        requires ended { (sent.mark ≢ 0) × HasEnded taken.old }
        ensures same { taken.new ≡ taken.old }
        ensures mark { slice_index taken.new.found sent.sender ≡ sent.mark }
        ensures whole { requests_of sent.sender taken.new.taken ≡ sent.sent }
    {
        let SendPass { pass, seat, .. } = sent;
        queue::settle(&self.rt, &self.queue, &mut taken.pass, pass);
        marks::settle(&self.marks, &mut taken.seat, seat);
    }
}

impl<R: Drop> Drop for Post<R> {
    fn drop(self) {
        let Self {
            rt: _,
            queue,
            marks,
            bell,
        } = self;
        drop(bell);
        queue.destroy();
    }
}
