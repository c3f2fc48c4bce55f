//! The status of a user, and the presence that a guild keeps of it.

ghost use Rattle.std.specs.Prelude.{◌≡◌, Some};
ghost use Rattle.guild_model.specs.Statuses.{status_name, status_named, status_shown, status_of_shown};

use collections::Keyed;
use snowflake_id::Snowflake;

/// How others see a user that is not offline (Gateway Events, Presence Update Event Fields).
#[derive(Clone, Copy, PartialEq, Eq, Debug)]
pub enum ShownStatus {
    Online,
    Idle,
    DoNotDisturb,
}

/// A status that a user may set (Gateway Events, Status Types).
#[derive(Clone, Copy, PartialEq, Eq, Debug)]
pub enum Status {
    Online,
    Idle,
    Dnd,
    /// As if offline.
    Invisible,
    Offline,
}

impl Status {
    /// The name of the status.
    #[tactic(auto, unfolding(crate::specs::Statuses::status_named))]
    pub fn name(self) -> &'static str
        ensures name { result.now ≡ status_name self }
        ensures back { status_named result.now ≡ Some self }
    {
        match self {
            Status::Online => "online",
            Status::Idle => "idle",
            Status::Dnd => "dnd",
            Status::Invisible => "invisible",
            Status::Offline => "offline",
        }
    }

    /// The status of a name, and `None` exactly if no status has it.
    #[tactic(auto, unfolding(crate::specs::Statuses::status_named))]
    pub fn of_name(name: &str) -> Option<Status>
        ensures { result ≡ status_named name.now }
    {
        if name == "online" {
            return Some(Status::Online);
        }
        if name == "idle" {
            return Some(Status::Idle);
        }
        if name == "dnd" {
            return Some(Status::Dnd);
        }
        if name == "invisible" {
            return Some(Status::Invisible);
        }
        if name == "offline" {
            return Some(Status::Offline);
        }
        None
    }

    /// How others see a user of this status: `None` if it is invisible or offline.
    pub fn shown(self) -> Option<ShownStatus>
        ensures { result ≡ status_shown self }
    {
        match self {
            Status::Online => Some(ShownStatus::Online),
            Status::Idle => Some(ShownStatus::Idle),
            Status::Dnd => Some(ShownStatus::DoNotDisturb),
            Status::Invisible | Status::Offline => None,
        }
    }

    /// The status that others are sent of a user: `None` is offline.
    pub fn of_shown(shown: Option<ShownStatus>) -> Status
        ensures status { result ≡ status_of_shown shown }
        ensures back { status_shown result ≡ shown }
    {
        match shown {
            Some(ShownStatus::Online) => Status::Online,
            Some(ShownStatus::Idle) => Status::Idle,
            Some(ShownStatus::DoNotDisturb) => Status::Dnd,
            None => Status::Offline,
        }
    }
}

/// The presence of a user; one that is offline has none.
#[derive(Clone, Copy, PartialEq, Eq, Debug)]
pub struct Presence {
    pub user: Snowflake,
    pub status: ShownStatus,
}

impl Keyed for Presence {
    ghost key = { λ p. p.user };

    fn key(&self) -> u64 {
        self.user.0
    }
}
