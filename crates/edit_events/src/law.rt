//! The laws of what an edit owes.

ghost use Rattle.edit_events.specs.Law.{NoteIsEnough, EditKeeps, ProjectionStays, OthersStay, GreetingHolds, GreetingStays};
ghost use Rattle.edit_events.specs.Forms.{FormIsDue};
ghost use Rattle.edit_events.specs.Messages.{MessagesAreShown};
ghost use Rattle.edit_events.specs.Privacy.{EditTellsOnly, GreetingTellsOnly};

/// What is given by what [`note`](crate::note) kept of the record before an accepted edit is what is due
/// by that record.
pub fn note_is_enough()
    ensures { NoteIsEnough }
{}

/// After what an edit owes, a client holds the projection of the record after it.
pub fn edit_keeps()
    ensures { EditKeeps }
{}

/// A purge leaves a client that holds the projection as it is.
pub fn projection_stays()
    ensures { ProjectionStays }
{}

/// Of another guild it holds what it held.
pub fn others_stay()
    ensures { OthersStay }
{}

/// GUILD_CREATE brings the projection, whatever was held.
pub fn greeting_holds()
    ensures { GreetingHolds }
{}

/// Of another guild it leaves what is held.
pub fn greeting_stays()
    ensures { GreetingStays }
{}

/// The dispatch of an accepted edit of messages is due exactly if it is shown after that very edit.
pub fn messages_are_shown()
    ensures { MessagesAreShown }
{}

/// Viewers to which an edit of messages is told in one form are due the same.
pub fn form_is_due()
    ensures { FormIsDue }
{}

/// What an edit owes tells of no channel, and of no voice state in a channel, that is shown neither before nor
/// after the edit.
pub fn edit_tells_only()
    ensures { EditTellsOnly }
{}

/// GUILD_CREATE tells of the channels that are shown, and of voice states in them alone.
pub fn greeting_tells_only()
    ensures { GreetingTellsOnly }
{}
