//! The laws of what a change of permissions uncovers.

ghost use Rattle.thread_sync.specs.Law.{ThreadsStay, SyncRestores, ListsAreEnough, SightsAreEnough, OneSightIsEnough};

/// THE LAW OF PERMISSION CHANGES: after any change of owner, roles, members and overwrites, a client's
/// own losses and the gains of the sync make up the whole difference.
pub fn sync_restores()
    ensures { SyncRestores }
{}

/// A member that is granted what it was, wherever threads stand, holds the threads that it held.
pub fn threads_stay()
    ensures { ThreadsStay }
{}

/// The sync by the lists of what was seen before is the sync by the record before, if the threads are
/// as they were.
pub fn lists_are_enough()
    ensures { ListsAreEnough }
{}

/// The sync by the sights of the channels before is the sync by the record before.
pub fn sights_are_enough()
    ensures { SightsAreEnough }
{}

/// After a change of one channel alone, the sync by the sights of that channel before and after is the
/// sync by the records before and after.
pub fn one_sight_is_enough()
    ensures { OneSightIsEnough }
{}
