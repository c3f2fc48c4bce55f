//! Why a command over files does not come to its end.

ghost use Rattle.std.specs.Prelude.{◌≡◌};
ghost use Rattle.files_main.specs.Does.{play_fault, lift_fault};

use file_lift::LiftFault;
use scenario::PlayFault;

/// Why a command over files did not come to its end.
#[derive(Clone, Copy, Debug)]
pub enum FilesFault {
    /// The play of a file ended by this fault.
    Play(PlayFault),
    /// A lift ended by this fault.
    Lift(LiftFault),
}

/// Why a play did not come to its end.
pub fn play_fault(played: &Result<(), PlayFault>) -> Option<FilesFault>
    ensures { result ≡ play_fault played.now }
{
    match played {
        Ok(()) => None,
        Err(fault) => Some(FilesFault::Play(*fault)),
    }
}

/// Why a lift did not come to its end.
pub fn lift_fault(lifted: &Result<(), LiftFault>) -> Option<FilesFault>
    ensures { result ≡ lift_fault lifted.now }
{
    match lifted {
        Ok(()) => None,
        Err(fault) => Some(FilesFault::Lift(*fault)),
    }
}
