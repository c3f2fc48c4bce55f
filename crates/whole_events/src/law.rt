//! The laws of what an edit owes of a guild that withholds no channels.

ghost use Rattle.whole_events.specs.Law.{EditFollows, NoteIsEnough};

/// After what an edit owes, a client that held all of the guild holds all of it as it then is.
pub fn edit_follows()
    ensures { EditFollows }
{}

/// What is given by what [`note`](crate::note) kept of the record before an edit is what is owed by that record.
pub fn note_is_enough()
    ensures { NoteIsEnough }
{}
