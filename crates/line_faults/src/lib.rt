//! The number and the name of a fault of a line, as `stop` lines tell them.
#![tactic(auto)]

ghost use Rattle.std.specs.Prelude.{◌≡◌};
ghost use Rattle.line_faults.specs.Faults.{fault_number, fault_name};

use edit_fields::LineFault;

/// The number of a fault: 1 to 5 in the order of `LineFault`, and 0 for out of memory, which is no fault of a
/// line.
pub fn fault_number(fault: LineFault) -> u8
    ensures { result ≡ fault_number fault }
{
    match fault {
        LineFault::NotJson => 1,
        LineFault::NoSuchStep => 2,
        LineFault::Missing => 3,
        LineFault::WrongType => 4,
        LineFault::TooLong => 5,
        LineFault::Memory => 0,
    }
}

/// The name of a fault.
pub fn fault_name(fault: LineFault) -> &'static str
    ensures { result.now ≡ fault_name fault }
{
    match fault {
        LineFault::NotJson => "NotJson",
        LineFault::NoSuchStep => "NoSuchStep",
        LineFault::Missing => "Missing",
        LineFault::WrongType => "WrongType",
        LineFault::TooLong => "TooLong",
        LineFault::Memory => "Memory",
    }
}
