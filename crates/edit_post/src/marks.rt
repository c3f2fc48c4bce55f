//! The marks of a post: a word for each sender, by which it ends.
ghost use Rattle.std.specs.Prelude.{◌≡◌, ◌≢◌, ◌<◌, [], true, false, slice_index, IfOk};
ghost use Rattle.edit_post.specs.MarkRule.{no_marks, no_mark, with_unfound, unstored, storing, finding, knowing, WasUnstored, Stores, Finds, Agrees};

use crate::mark_view::MarkView;
use atomic_table::{Join, Play, Seat, Split, Table, TableRule};
use std::alloc::{AllocError, Global};

/// The rule of a post's marks.
pub struct OnePerSender;

impl TableRule<(), MarkView, ()> for OnePerSender {
    ghost use Rattle.edit_post.specs.MarkRule.{no_marks, Marked};

    ghost holds = { λ _. Marked };

    ghost first = { λ _. no_marks };
}

struct Storing;

impl Play<(), MarkView> for Storing {
    ghost then = { Stores };
}

struct Finding;

impl Play<(), MarkView> for Finding {
    ghost then = { Finds };
}

struct Agreeing;

impl Play<(), MarkView> for Agreeing {
    ghost then = { Agrees };
}

struct NewMark;

impl Split<MarkView> for NewMark {
    ghost left = { with_unfound };

    ghost right = { unstored };
}

struct Known;

impl Join<MarkView> for Known {
    ghost both = { knowing };

    ghost spent = { no_mark };
}

/// The marks of a post.
pub type Marks = Table<(), MarkView, (), OnePerSender, Global>;

/// A seat at the marks of a post.
pub type MarkSeat = Seat<(), MarkView>;

/// Sixteen words without a mark, and the taker's seat.
pub fn open(alloc: Global) -> Result<(Marks, MarkSeat), AllocError>
    ensures { IfOk result (λ r. (r.0.shared.table_id.words ≡ 16) × (r.1.table_id ≡ r.0.shared.table_id) × (r.1.me ≡ (no_marks, []))) }
{
    Marks::of_words(alloc, &[0; 16], &())
}

/// Makes a seat for the next sender. It does not allocate.
pub fn admit(marks: &Marks, taker: &mut MarkSeat) -> MarkSeat
    requires table { (taker.old.table_id ≡ marks.now.shared.table_id) × (marks.now.shared.table_id.words ≡ 16) }
    requires takes { (taker.old.me.0.takes ≡ true) × (taker.old.me.0.made < 16) }
    ensures table { (taker.new.table_id ≡ taker.old.table_id) × (result.table_id ≡ taker.old.table_id) }
    ensures taker { taker.new.me ≡ (with_unfound taker.old.me.0, taker.old.me.1) }
    ensures sender { result.me ≡ (unstored taker.old.me.0, []) }
{
    marks.shared.split_seat::<NewMark>(taker)
}

/// Stores the mark of the seat's sender, which has stored none. It does not allocate.
pub fn store(marks: &Marks, seat: &mut MarkSeat, sender: usize, mark: u64)
    requires table { (seat.old.table_id ≡ marks.now.shared.table_id) × (marks.now.shared.table_id.words ≡ 16) }
    requires sender { (seat.old.me.0.sends ≡ true) × (seat.old.me.0.takes ≡ false) × (seat.old.me.0.sender ≡ sender) × (sender < 16) }
    requires once { (seat.old.me.0.stored ≡ 0) × (0 < mark) }
    ensures table { seat.new.table_id ≡ seat.old.table_id }
    ensures stored { seat.new.me ≡ (storing seat.old.me.0 mark, seat.old.me.1) }
{
    marks.shared.store::<Storing>(seat, sender, mark);
}

/// The mark of a sender at one step of the call, 0 for none. It does not allocate.
pub fn find(marks: &Marks, taker: &mut MarkSeat, sender: usize) -> u64
    requires table { (taker.old.table_id ≡ marks.now.shared.table_id) × (marks.now.shared.table_id.words ≡ 16) }
    requires taker { (taker.old.me.0.takes ≡ true) × (sender < 16) }
    ensures table { taker.new.table_id ≡ taker.old.table_id }
    ensures found { taker.new.me ≡ (finding taker.old.me.0 sender result, taker.old.me.1) }
    ensures same { slice_index taker.old.me.0.found sender ≢ 0 → result ≡ slice_index taker.old.me.0.found sender }
    ensures unstored { result ≡ 0 → WasUnstored sender taker.new.me.0 }
{
    marks.shared.load::<Finding>(taker, sender)
}

/// Ends a sender's seat. The mark that was found of it, if one was, is the mark that it stored.
pub fn settle(marks: &Marks, taker: &mut MarkSeat, sender: MarkSeat)
    requires table { (taker.old.table_id ≡ marks.now.shared.table_id) × (sender.table_id ≡ marks.now.shared.table_id) × (sender.me.1 ≡ []) × (marks.now.shared.table_id.words ≡ 16) }
    requires roles { (taker.old.me.0.takes ≡ true) × (sender.me.0.sends ≡ true) }
    ensures table { taker.new.table_id ≡ taker.old.table_id }
    ensures same { taker.new.me ≡ (knowing taker.old.me.0 sender.me.0, taker.old.me.1) }
    ensures told { slice_index taker.old.me.0.found sender.me.0.sender ≢ 0 → slice_index taker.old.me.0.found sender.me.0.sender ≡ sender.me.0.stored }
{
    marks.shared.join_seat::<Known>(taker, sender);
    marks.shared.load::<Agreeing>(taker, 0);
}
