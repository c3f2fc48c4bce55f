//! The law of the edits of channels.

ghost use Rattle.channel_events.specs.Law.{ChannelEditKeeps, ChannelNoteIsEnough};

/// After what an accepted edit owes, a client of a viewer that is served before and after it holds the
/// view of the record after it.
pub fn channel_edit_keeps()
    ensures { ChannelEditKeeps }
{}

/// The dispatches by what [`note`](crate::note) kept are those by the records before and after an edit.
pub fn channel_note_is_enough()
    ensures { ChannelNoteIsEnough }
{}
