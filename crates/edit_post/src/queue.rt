//! The queue of a post, under the rule that each sender's requests are taken in its order.
ghost use Rattle.std.specs.Prelude.{◌≡◌, ◌++◌, ◌+◌, ◌^◌, ◌/◌, ◌<◌, true, false, length, MatchOption, MatchResult, IfOk, IfErr, List};
ghost use Rattle.crossbeam_queue.specs.declared.seg_queue.Stage.TheVariants.{SawHead};
ghost use Rattle.crossbeam_queue.specs.SegTies.{IsSegPassOf};
ghost use Rattle.edit_post.specs.Requests.{requests_of};
ghost use Rattle.edit_post.specs.QueueRule.{put, took, with_empty_take, without_empty_take, joined, opening, spent, with_sender, new_sender, WasEmpty};

use crate::queue_view::QueueView;
use crate::request::Request;
use crossbeam_queue::protocol::{Join, Lesson, Outcome, Protocol, Split};
use crossbeam_queue::{RuledSegQueue, SegPass};
use std::alloc::{AllocError, Global};
use std::sync::Wait;

/// The rule of a post's queue.
pub struct InOrder;

impl Protocol<Request, QueueView> for InOrder {
    ghost use Rattle.edit_post.specs.QueueRule.{opening, KeepsOrder};

    ghost holds = { KeepsOrder };

    ghost first = { opening };
}

struct Sends;

impl Outcome<Request, QueueView> for Sends {
    ghost then = { λ before request after. after ≡ put before request };
}

struct Takes;

impl Outcome<Request, QueueView> for Takes {
    ghost then = { λ before request after. (after ≡ took before request)
        × (request.sender < before.made)
        × (request.number ≡ length (requests_of request.sender before.taken) + 1) };
}

impl Lesson<Request, QueueView> for Takes {
    ghost use Rattle.std.specs.Prelude.{⊤};

    ghost fact = { λ mine items. ⊤ };
}

// A look at the queue once a take has counted itself.
struct Sees;

impl Lesson<Request, QueueView> for Sees {
    ghost use Rattle.std.specs.Prelude.{◌≡◌, ℕ, List};
    ghost use mathlib.Core.Option.{some};
    ghost use lib.ListN.{get_elem?};
    ghost use Rattle.edit_post.specs.declared.queue_view.QueueView.{QueueView};
    ghost use Rattle.edit_post.specs.QueueRule.{KeepsOrder};

    ghost fact = { λ mine items. (views : List QueueView) × (port : ℕ) × KeepsOrder items views × (get_elem? views port ≡ some mine) };
}

struct CountsItself;

impl Split<QueueView> for CountsItself {
    ghost left = { with_empty_take };

    ghost right = { λ _. spent };
}

struct TakesCountBack;

impl Split<QueueView> for TakesCountBack {
    ghost left = { without_empty_take };

    ghost right = { λ _. spent };
}

struct Admits;

impl Split<QueueView> for Admits {
    ghost left = { with_sender };

    ghost right = { new_sender };
}

struct Settles;

impl Join<QueueView> for Settles {
    ghost both = { joined };

    ghost spent = { spent };
}

impl Lesson<Request, QueueView> for Settles {
    ghost fact = { λ mine items. (requests_of mine.sender mine.taken ++ requests_of mine.sender items ≡ mine.sent) × (mine.sender < mine.made) };
}

/// A post's queue.
pub type Queue = RuledSegQueue<Request, QueueView, InOrder>;

/// A pass of a post's queue.
pub type QueuePass = SegPass<Request, QueueView>;

/// An empty queue and the taker's pass.
pub fn open(alloc: Global) -> Result<(Queue, QueuePass), AllocError>
    ensures { IfOk result (λ r. IsSegPassOf r.0 r.1 × (r.1.me.view.client ≡ opening)) }
{
    Queue::with_rule(alloc)
}

/// Makes a pass for the next sender. It does not allocate.
pub fn admit(queue: &Queue, taker: &mut QueuePass) -> QueuePass
    requires queue { IsSegPassOf queue.now taker.old }
    requires takes { taker.old.me.view.client.takes ≡ true }
    ensures queue { IsSegPassOf queue.now taker.new × IsSegPassOf queue.now result }
    ensures taker { taker.new.me.view.client ≡ with_sender taker.old.me.view.client }
    ensures sender { result.me.view.client ≡ new_sender taker.old.me.view.client }
{
    queue.another::<Admits>(taker)
}

/// Puts a request at the back. If memory runs out, it hands the request back.
pub fn send<R: Wait>(
    rt: &R,
    queue: &Queue,
    pass: &mut QueuePass,
    request: Request,
) -> Result<(), Request>
    requires queue { IsSegPassOf queue.now pass.old }
    requires sender { (pass.old.me.view.client.sends ≡ true) × (pass.old.me.view.client.takes ≡ false) × (request.sender ≡ pass.old.me.view.client.sender) }
    requires number { request.number ≡ length pass.old.me.view.client.sent + 1 }
    ensures queue { IsSegPassOf queue.now pass.new }
    ensures sent { MatchResult result (λ _. pass.new.me.view.client ≡ put pass.old.me.view.client request) (λ back. (back ≡ request) × (pass.new.me.view.client ≡ pass.old.me.view.client)) }
{
    queue.push_as::<Sends, R>(rt, pass, request)
}

/// Removes the request at the front. `None` only if the queue was empty at one step of the call. It
/// does not allocate.
pub fn take<R: Wait>(rt: &R, queue: &Queue, pass: &mut QueuePass) -> Option<Request>
    requires queue { IsSegPassOf queue.now pass.old }
    requires taker { pass.old.me.view.client.takes ≡ true }
    ensures queue { IsSegPassOf queue.now pass.new }
    ensures taken { MatchOption result
        ((pass.new.me.view.client ≡ with_empty_take pass.old.me.view.client) × WasEmpty pass.new.me.view.client)
        (λ r. (pass.new.me.view.client ≡ took pass.old.me.view.client r) × (r.sender < pass.old.me.view.client.made)
        × (r.number ≡ length (requests_of r.sender pass.old.me.view.client.taken) + 1)) }
{
    let mut head = queue.head(pass);
    for _ in rt.forever() {
        match try_take(rt, queue, pass, head) {
            Ok(found @ Some(_)) => return found,
            Ok(None) => {
                if was_empty(queue, pass) {
                    return None;
                }
                head = queue.head(pass);
            }
            Err(next) => head = next,
        }
    }
    unreachable!()
}

// One attempt at the position `head`, or the position to try next.
// A request is large, and laid into a loop it would be moved once more for each way through the loop.
#[inline(never)]
fn try_take<R: Wait>(
    rt: &R,
    queue: &Queue,
    pass: &mut QueuePass,
    head: u64,
) -> Result<Option<Request>, u64>
    requires queue { IsSegPassOf queue.now pass.old }
    requires head { (pass.old.me.view.stage ≡ SawHead) × (pass.old.me.view.at ≡ head / 2) × (head < 2 ^ 63 + 2) }
    requires taker { pass.old.me.view.client.takes ≡ true }
    ensures queue { IsSegPassOf queue.now pass.new }
    ensures taken { IfOk result (λ found. MatchOption found
        (pass.new.me.view.client ≡ pass.old.me.view.client)
        (λ r. (pass.new.me.view.client ≡ took pass.old.me.view.client r) × (r.sender < pass.old.me.view.client.made)
        × (r.number ≡ length (requests_of r.sender pass.old.me.view.client.taken) + 1))) }
    ensures again { IfErr result (λ next. (pass.new.me.view.client ≡ pass.old.me.view.client)
        × (pass.new.me.view.stage ≡ SawHead) × (pass.new.me.view.at ≡ next / 2) × (next < 2 ^ 63 + 2)) }
{
    queue.try_pop_from::<Takes, R>(rt, pass, head)
}

// Counts this take as one that finds nothing, and only then looks, so that the step at which the queue
// was empty is known to be one of this call. If a request has come, the count is taken back.
#[cold]
#[inline(never)]
fn was_empty(queue: &Queue, pass: &mut QueuePass) -> bool
    requires queue { IsSegPassOf queue.now pass.old }
    requires taker { pass.old.me.view.client.takes ≡ true }
    ensures queue { IsSegPassOf queue.now pass.new }
    ensures empty { result ≡ true → (pass.new.me.view.client ≡ with_empty_take pass.old.me.view.client) × WasEmpty pass.new.me.view.client }
    ensures other { result ≡ false → pass.new.me.view.client ≡ pass.old.me.view.client }
{
    drop(queue.another::<CountsItself>(pass));
    if queue.is_empty_as::<Sees>(pass) {
        return true;
    }
    drop(queue.another::<TakesCountBack>(pass));
    false
}

/// Ends a sender's pass. What was taken of the sender, and then what the queue held of it at one step
/// of the call, is what it sent.
pub fn settle<R: Wait>(rt: &R, queue: &Queue, taker: &mut QueuePass, sender: QueuePass)
    requires queue { IsSegPassOf queue.now taker.old × IsSegPassOf queue.now sender }
    requires roles { (taker.old.me.view.client.takes ≡ true) × (sender.me.view.client.sends ≡ true) }
    ensures queue { IsSegPassOf queue.now taker.new }
    ensures same { taker.new.me.view.client ≡ joined taker.old.me.view.client sender.me.view.client }
    ensures made { sender.me.view.client.sender < taker.old.me.view.client.made }
    ensures told { (items : List Request) × (requests_of sender.me.view.client.sender taker.old.me.view.client.taken ++ requests_of sender.me.view.client.sender items ≡ sender.me.view.client.sent) }
{
    queue.absorb::<Settles>(taker, sender);
    queue.len_as::<Settles, R>(rt, taker);
}
