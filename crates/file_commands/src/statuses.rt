//! The exit statuses of the commands over files.

ghost use Rattle.std.specs.Prelude.{◌≡◌};
ghost use Rattle.file_commands.specs.Playing.{play_status};
ghost use Rattle.file_commands.specs.Lifting.{lift_status};
ghost use Rattle.file_commands.specs.Usage.{usage_status};

use file_lift::LiftFault;
use gate_outside::faults::Fault;
use scenario::PlayFault;

/// The exit status if the words are not those of a command.
pub const BAD_WORDS: u8 = 2;

/// The exit status if memory ran out.
pub const NO_MEMORY: u8 = 6;

/// The exit status of a play.
pub fn play_status(played: &Result<(), PlayFault>) -> u8
    ensures { result ≡ play_status played.now }
{
    match played {
        Ok(()) => 0,
        Err(PlayFault::Read) => 3,
        Err(PlayFault::Write) => 4,
        Err(PlayFault::Line { .. }) => 5,
        Err(PlayFault::Memory) => NO_MEMORY,
        Err(PlayFault::Spent) => 12,
    }
}

/// The exit status of a lift.
pub fn lift_status(lifted: &Result<(), LiftFault>) -> u8
    ensures { result ≡ lift_status lifted.now }
{
    match lifted {
        Ok(()) => 0,
        Err(LiftFault::Read) => 3,
        Err(LiftFault::Write) => 4,
        Err(LiftFault::Line { .. }) => 5,
        Err(LiftFault::Memory) => NO_MEMORY,
    }
}

/// The exit status after the usage line.
pub fn usage_status(told: Result<(), Fault>) -> u8
    ensures { result ≡ usage_status told }
{
    match told {
        Ok(()) => BAD_WORDS,
        Err(Fault::Failed) => BAD_WORDS,
        Err(Fault::Memory) => NO_MEMORY,
    }
}
