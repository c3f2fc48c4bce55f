//! The word of a flag: 0 while it is not set, and else the number of a seat that has set it, and one more.
ghost use Rattle.std.specs.Prelude.{◌≡◌, ◌+◌, ◌<◌, [], true, false, IfOk};
ghost use Rattle.stop_flag.specs.FlagRule.{no_seats, no_seat, with_seat, new_seat, setting, finding, knowing, WasUnset, Sets, Finds, Agrees};
ghost use Rattle.stop_flag.specs.Ended.{IsFair};

use crate::flag_view::FlagView;
use atomic_table::{Join, Play, Seat, Split, Table, TableRule};
use std::alloc::{AllocError, Global};

/// The rule of a flag.
pub struct NamesSetter;

impl TableRule<(), FlagView, ()> for NamesSetter {
    ghost use Rattle.stop_flag.specs.FlagRule.{no_seats, KeepsFlag};

    ghost holds = { λ _. KeepsFlag };

    ghost first = { λ _. no_seats };
}

struct Setting;

impl Play<(), FlagView> for Setting {
    ghost then = { Sets };
}

struct Finding;

impl Play<(), FlagView> for Finding {
    ghost then = { Finds };
}

struct Agreeing;

impl Play<(), FlagView> for Agreeing {
    ghost then = { Agrees };
}

struct NewSeat;

impl Split<FlagView> for NewSeat {
    ghost left = { with_seat };

    ghost right = { new_seat };
}

struct Known;

impl Join<FlagView> for Known {
    ghost both = { knowing };

    ghost spent = { no_seat };
}

/// The word of a flag.
pub type Flags = Table<(), FlagView, (), NamesSetter, Global>;

/// A seat at a flag.
pub type FlagSeat = Seat<(), FlagView>;

/// A flag that is not set, and its keeper's seat.
pub fn open(alloc: Global) -> Result<(Flags, FlagSeat), AllocError>
    ensures { IfOk result (λ r. (r.0.shared.table_id.words ≡ 1) × (r.1.table_id ≡ r.0.shared.table_id) × (r.1.me ≡ (no_seats, []))) }
{
    Flags::of_words(alloc, &[0], &())
}

/// Makes the next seat. It does not allocate.
pub fn admit(flags: &Flags, keeper: &mut FlagSeat) -> FlagSeat
    requires table { (keeper.old.table_id ≡ flags.now.shared.table_id) × (flags.now.shared.table_id.words ≡ 1) }
    requires keeps { keeper.old.me.0.keeps ≡ true }
    ensures table { (keeper.new.table_id ≡ keeper.old.table_id) × (result.table_id ≡ keeper.old.table_id) }
    ensures keeper { keeper.new.me ≡ (with_seat keeper.old.me.0, keeper.old.me.1) }
    ensures seat { result.me ≡ (new_seat keeper.old.me.0, []) }
{
    flags.shared.split_seat::<NewSeat>(keeper)
}

/// Sets the flag. It does not allocate.
pub fn set(flags: &Flags, seat: &mut FlagSeat, number: u8)
    requires table { (seat.old.table_id ≡ flags.now.shared.table_id) × (flags.now.shared.table_id.words ≡ 1) }
    requires seat { (seat.old.me.0.sits ≡ true) × (seat.old.me.0.keeps ≡ false) × (seat.old.me.0.number ≡ number) }
    ensures table { seat.new.table_id ≡ seat.old.table_id }
    ensures set { seat.new.me ≡ (setting seat.old.me.0, seat.old.me.1) }
{
    let word = u64::from(number) + 1;
    flags.shared.store::<Setting>(seat, 0, word);
}

/// The flag's word at one step of the call. It does not allocate.
pub fn find(flags: &Flags, seat: &mut FlagSeat) -> u64
    requires table { (seat.old.table_id ≡ flags.now.shared.table_id) × (flags.now.shared.table_id.words ≡ 1) }
    requires seat { (seat.old.me.0.sits ≡ true) × (seat.old.me.0.keeps ≡ false) }
    ensures table { seat.new.table_id ≡ seat.old.table_id }
    ensures found { seat.new.me ≡ (finding seat.old.me.0 result, seat.old.me.1) }
    ensures unset { result ≡ 0 → WasUnset seat.new.me.0 }
{
    flags.shared.load::<Finding>(seat, 0)
}

/// Ends a part's seat. The keeper knows from then on what it told. It does not allocate.
pub fn settle(flags: &Flags, keeper: &mut FlagSeat, seat: FlagSeat)
    requires table { (keeper.old.table_id ≡ flags.now.shared.table_id) × (seat.table_id ≡ flags.now.shared.table_id) × (seat.me.1 ≡ []) × (flags.now.shared.table_id.words ≡ 1) }
    requires roles { (keeper.old.me.0.keeps ≡ true) × (seat.me.0.sits ≡ true) }
    ensures table { keeper.new.table_id ≡ keeper.old.table_id }
    ensures known { keeper.new.me ≡ (knowing keeper.old.me.0 seat.me.0, keeper.old.me.1) }
    ensures fair { IsFair keeper.new.me.0.seats keeper.new.me.0.ended }
{
    flags.shared.join_seat::<Known>(keeper, seat);
    flags.shared.load::<Agreeing>(keeper, 0);
}
