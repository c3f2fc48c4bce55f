//! The law of the edits of roles and members.

ghost use Rattle.role_member_events.specs.Law.{RoleMemberNoteIsEnough};

/// The dispatches by what [`note`](crate::note) kept are those by the records before and after an edit.
pub fn role_member_note_is_enough()
    ensures { RoleMemberNoteIsEnough }
{}
