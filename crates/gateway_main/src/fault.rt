//! Why a command does not come to its end.

use client_follow::FollowFault;
use file_lift::LiftFault;
use load_run::LoadFault;
use scenario::PlayFault;
use serve_run::ServeFault;

/// Why a command did not come to its end.
#[derive(Clone, Copy, Debug)]
pub enum GateFault {
    /// The play of a file ended by this fault.
    Play(PlayFault),
    /// A load ended by this fault.
    Load(LoadFault),
    /// A run of `serve` ended by this fault.
    Serve(ServeFault),
    /// A client ended by this fault.
    Follow(FollowFault),
    /// A lift ended by this fault.
    Lift(LiftFault),
}
