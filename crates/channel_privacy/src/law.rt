//! The law of what is noted before an edit.

ghost use Rattle.channel_privacy.specs.Law.{NoteIsEnough};

/// What is told by what [`ShownBefore::of`](crate::ShownBefore::of) noted is what is told by the record before
/// the edit.
pub fn note_is_enough()
    ensures { NoteIsEnough }
{}
