//! The exit statuses of the command, and the faults that they tell.

ghost use Rattle.std.specs.Prelude.{◌≡◌};
ghost use Rattle.gateway_main.specs.Gate.{play_fault, load_status, load_fault, serve_status, serve_fault, follow_status, follow_fault, lift_fault};

use crate::fault::GateFault;
use client_follow::FollowFault;
use file_commands::NO_MEMORY;
use file_lift::LiftFault;
use load_run::LoadFault;
use scenario::PlayFault;
use serve_run::ServeFault;

/// Why a play did not come to its end.
pub fn play_fault(played: &Result<(), PlayFault>) -> Option<GateFault>
    ensures { result ≡ play_fault played.now }
{
    match played {
        Ok(()) => None,
        Err(fault) => Some(GateFault::Play(*fault)),
    }
}

/// The exit status of a load.
pub fn load_status(loaded: &Result<(), LoadFault>) -> u8
    ensures { result ≡ load_status loaded.now }
{
    match loaded {
        Ok(()) => 0,
        Err(LoadFault::Write) => 4,
        Err(LoadFault::Memory) => NO_MEMORY,
        Err(LoadFault::Door) => 7,
        Err(LoadFault::Start) => 8,
        Err(LoadFault::Out(_)) => 10,
        Err(LoadFault::BadText) => 11,
        Err(LoadFault::Spent) => 12,
    }
}

/// Why a load did not come to its end.
pub fn load_fault(loaded: &Result<(), LoadFault>) -> Option<GateFault>
    ensures { result ≡ load_fault loaded.now }
{
    match loaded {
        Ok(()) => None,
        Err(fault) => Some(GateFault::Load(*fault)),
    }
}

/// The exit status of a run of `serve`.
pub fn serve_status(ended: &Result<(), ServeFault>) -> u8
    ensures { result ≡ serve_status ended.now }
{
    match ended {
        Ok(()) => 0,
        Err(ServeFault::Read) => 3,
        Err(ServeFault::Write) => 4,
        Err(ServeFault::Line { .. }) => 5,
        Err(ServeFault::Memory) => NO_MEMORY,
        Err(ServeFault::Door) => 7,
        Err(ServeFault::Start) => 8,
        Err(ServeFault::Spent) => 12,
    }
}

/// Why a run of `serve` did not come to its end.
pub fn serve_fault(ended: &Result<(), ServeFault>) -> Option<GateFault>
    ensures { result ≡ serve_fault ended.now }
{
    match ended {
        Ok(()) => None,
        Err(fault) => Some(GateFault::Serve(*fault)),
    }
}

/// The exit status of a client.
pub fn follow_status(followed: &Result<(), FollowFault>) -> u8
    ensures { result ≡ follow_status followed.now }
{
    match followed {
        Ok(()) => 0,
        Err(FollowFault::Write) => 4,
        Err(FollowFault::Memory) => NO_MEMORY,
        Err(FollowFault::Dials) => 9,
        Err(FollowFault::Closed { .. }) => 10,
        Err(FollowFault::BadText) => 11,
    }
}

/// Why a client did not come to its end.
pub fn follow_fault(followed: &Result<(), FollowFault>) -> Option<GateFault>
    ensures { result ≡ follow_fault followed.now }
{
    match followed {
        Ok(()) => None,
        Err(fault) => Some(GateFault::Follow(*fault)),
    }
}

/// Why a lift did not come to its end.
pub fn lift_fault(lifted: &Result<(), LiftFault>) -> Option<GateFault>
    ensures { result ≡ lift_fault lifted.now }
{
    match lifted {
        Ok(()) => None,
        Err(fault) => Some(GateFault::Lift(*fault)),
    }
}
