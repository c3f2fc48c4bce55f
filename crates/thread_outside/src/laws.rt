//! Laws for proofs over lanes and over the queues of doors.
ghost use Rattle.std.specs.Prelude.{◌≡◌, ◌++◌, ℕ, List, true};
ghost use mathlib.Core.Option.{some};
ghost use lib.ListN.{get_elem?};
ghost use Rattle.gate_outside.specs.declared.sending.Sending.{Sending};
ghost use Rattle.thread_outside.specs.declared.lane_view.LaneView.{LaneView};
ghost use Rattle.thread_outside.specs.declared.call_view.CallView.{CallView};
ghost use Rattle.thread_outside.specs.CallLists.{CallState};
ghost use Rattle.thread_outside.specs.CallRule.{KeepsCalls, TakesInTurn};
ghost use Rattle.thread_outside.specs.Flags.{FlagState, KeepsFlag};
ghost use Rattle.thread_outside.specs.declared.flag_view.FlagView.{FlagView};
ghost use Rattle.thread_outside.specs.Lanes.{KeepsAll};

/// A law for proofs: at each step of a lane, what was taken, and then what waits, is what was put.
pub fn put_is_taken_or_waits()
    ensures { (items : List Sending) (views : List LaneView) (j k : ℕ) (taker putter : LaneView) → KeepsAll items views
        → get_elem? views j ≡ some taker → taker.takes ≡ true → get_elem? views k ≡ some putter → putter.puts ≡ true
        → putter.put ≡ taker.taken ++ items }
{}

/// A law for proofs: at each step of a lane's flag, if the end that takes has found that the end that
/// puts has left, it has.
pub fn found_left_has_left()
    ensures { (s : FlagState) (j k : ℕ) (taker putter : FlagView) → KeepsFlag s
        → get_elem? s.views j ≡ some taker → taker.takes ≡ true → taker.found ≡ true
        → get_elem? s.views k ≡ some putter → putter.puts ≡ true → putter.left ≡ true }
{}

/// A law for proofs: at each step of a door's queue, what was taken of a dial, and then what waits of
/// it, is what it put, and of a dial whose end was taken nothing waits.
pub fn calls_are_taken_in_turn()
    ensures { (items : List CallState) (views : List CallView) → KeepsCalls items views → TakesInTurn items views }
{}
