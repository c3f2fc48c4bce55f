//! Laws on what edits of messages owe.

ghost use Rattle.message_events.specs.Law.{MessageEditKeeps, FormDecides};

/// After what an edit of messages owes, a client holds its member's view of the record after it.
pub fn message_edit_keeps()
    ensures { MessageEditKeeps }
{}

/// Viewers of one form are due the same.
pub fn form_decides()
    ensures { FormDecides }
{}
