//! Why an edit is refused.

ghost use Rattle.std.specs.Prelude.{◌≡◌};
ghost use Rattle.guild_model.specs.Verdict.{verdict_number, verdict_name};

/// Why an edit is refused. Each names the first test of the edit that fails.
#[derive(Clone, Copy, PartialEq, Eq, Debug)]
pub enum Verdict {
    /// The guild is not open.
    NotOpen,
    /// The guild is open already, or is in no outage.
    AlreadyOpen,
    /// The guild is in an outage.
    Unavailable,
    UnknownRole,
    UnknownMember,
    UnknownChannel,
    UnknownThread,
    UnknownMessage,
    /// The id stands already among those of its kind.
    IdTaken,
    /// A channel or thread is of a type that the edit has no channel for.
    WrongType,
    /// The role is @everyone.
    EveryoneRole,
    /// The user is the guild's owner.
    OwnerStays,
    Archived,
    NotArchived,
    /// The user is in the thread.
    InThread,
    NotInThread,
    NotInVoice,
    /// One more would make more than `limit`.
    TooMany { limit: u32 },
    /// The text has more than `limit` bytes.
    TooLong { limit: u32 },
}

impl Verdict {
    /// The verdict's number, from 1, in the order of this list.
    pub fn number(self) -> u8
        ensures { result ≡ verdict_number self }
    {
        match self {
            Verdict::NotOpen => 1,
            Verdict::AlreadyOpen => 2,
            Verdict::Unavailable => 3,
            Verdict::UnknownRole => 4,
            Verdict::UnknownMember => 5,
            Verdict::UnknownChannel => 6,
            Verdict::UnknownThread => 7,
            Verdict::UnknownMessage => 8,
            Verdict::IdTaken => 9,
            Verdict::WrongType => 10,
            Verdict::EveryoneRole => 11,
            Verdict::OwnerStays => 12,
            Verdict::Archived => 13,
            Verdict::NotArchived => 14,
            Verdict::InThread => 15,
            Verdict::NotInThread => 16,
            Verdict::NotInVoice => 17,
            Verdict::TooMany { .. } => 18,
            Verdict::TooLong { .. } => 19,
        }
    }

    /// The verdict's name, without its limit.
    pub fn name(self) -> &'static str
        ensures { result.now ≡ verdict_name self }
    {
        match self {
            Verdict::NotOpen => "NotOpen",
            Verdict::AlreadyOpen => "AlreadyOpen",
            Verdict::Unavailable => "Unavailable",
            Verdict::UnknownRole => "UnknownRole",
            Verdict::UnknownMember => "UnknownMember",
            Verdict::UnknownChannel => "UnknownChannel",
            Verdict::UnknownThread => "UnknownThread",
            Verdict::UnknownMessage => "UnknownMessage",
            Verdict::IdTaken => "IdTaken",
            Verdict::WrongType => "WrongType",
            Verdict::EveryoneRole => "EveryoneRole",
            Verdict::OwnerStays => "OwnerStays",
            Verdict::Archived => "Archived",
            Verdict::NotArchived => "NotArchived",
            Verdict::InThread => "InThread",
            Verdict::NotInThread => "NotInThread",
            Verdict::NotInVoice => "NotInVoice",
            Verdict::TooMany { .. } => "TooMany",
            Verdict::TooLong { .. } => "TooLong",
        }
    }
}
