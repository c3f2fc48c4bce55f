//! The flag of a lane, by which the end that puts says that it has left.
ghost use Rattle.std.specs.Prelude.{◌≡◌, ◌<◌, [], true, false, IfOk, MatchBool};
ghost use Rattle.thread_outside.specs.Flags.{whole, leaver, finder, leaving, view_of};

use crate::flag_view::FlagView;
use atomic_table::{Play, Seat, Split, Table, TableRule};
use std::alloc::{AllocError, Global};

// The rule of a flag.
pub(crate) struct UpOnceLeft;

impl TableRule<(), FlagView, ()> for UpOnceLeft {
    ghost use Rattle.thread_outside.specs.Flags.{whole, KeepsFlag};

    ghost holds = { λ _. KeepsFlag };

    ghost first = { λ _. whole };
}

struct Leaving;

impl Play<(), FlagView> for Leaving {
    ghost use Rattle.thread_outside.specs.Flags.{Leaves};

    ghost then = { Leaves };
}

struct Finding;

impl Play<(), FlagView> for Finding {
    ghost use Rattle.thread_outside.specs.Flags.{Finds};

    ghost then = { Finds };
}

struct Seats;

impl Split<FlagView> for Seats {
    ghost left = { leaver };

    ghost right = { finder };
}

/// A word that is 0 until the end that puts has left.
pub(crate) type Flag = Table<(), FlagView, (), UpOnceLeft, Global>;

/// The right of one end to put a flag up, or to look at it.
pub(crate) type FlagSeat = Seat<(), FlagView>;

// A flag, the seat of the end that puts, and that of the end that takes.
pub(crate) fn open(alloc: Global) -> Result<(Flag, FlagSeat, FlagSeat), AllocError>
    ensures flag { IfOk result (λ r. (r.0.shared.table_id.words ≡ 1)
        × (r.1.table_id ≡ r.0.shared.table_id) × (r.2.table_id ≡ r.0.shared.table_id)) }
    ensures seats { IfOk result (λ r. (r.1.me ≡ (leaver whole, [])) × (r.2.me ≡ (finder whole, []))) }
{
    let (flag, mut leaves) = Flag::of_words(alloc, &[0], &())?;
    let finds = flag.shared.split_seat::<Seats>(&mut leaves);
    Ok((flag, leaves, finds))
}

// Puts the flag up.
pub(crate) fn leave(flag: &Flag, leaves: &mut FlagSeat)
    requires flag { (leaves.old.table_id ≡ flag.now.shared.table_id) × (flag.now.shared.table_id.words ≡ 1) }
    requires leaves { (leaves.old.me.0.puts ≡ true) × (leaves.old.me.0.takes ≡ false) }
    ensures flag { leaves.new.table_id ≡ leaves.old.table_id }
    ensures left { leaves.new.me ≡ (leaving leaves.old.me.0, leaves.old.me.1) }
{
    flag.shared.store::<Leaving>(leaves, 0, 1);
}

// Whether the flag is up, which the seat then knows. Once it is found up, it is found up always.
pub(crate) fn is_up(flag: &Flag, finds: &mut FlagSeat) -> bool
    requires flag { (finds.old.table_id ≡ flag.now.shared.table_id) × (flag.now.shared.table_id.words ≡ 1) }
    requires finds { (finds.old.me.0.takes ≡ true) × (finds.old.me.0.puts ≡ false) }
    ensures flag { finds.new.table_id ≡ finds.old.table_id }
    ensures found { MatchBool result
        (finds.new.me ≡ (view_of false finds.old.me.0.left true true, finds.old.me.1))
        ((finds.new.me ≡ finds.old.me) × (finds.old.me.0.found ≡ false)) }
{
    flag.shared.load::<Finding>(finds, 0) > 0
}

// Whether the flag may be up. Proofs learn nothing of it.
pub(crate) fn may_be_up(flag: &Flag) -> bool
    requires { flag.now.shared.table_id.words ≡ 1 }
{
    flag.shared.peek(0) > 0
}
