//! The law of the edits of threads.

ghost use Rattle.thread_events.specs.Law.{ThreadEditKeeps, ThreadNoteIsEnough};

/// After what an edit of threads owes, a client holds its member's view of the record after it.
pub fn thread_edit_keeps()
    ensures { ThreadEditKeeps }
{}

/// The dispatches by what [`note`](crate::note) kept are those by the records before and after an edit.
pub fn thread_note_is_enough()
    ensures { ThreadNoteIsEnough }
{}
