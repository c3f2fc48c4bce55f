//! What a change of permissions uncovers (Gateway Events, Thread List Sync).

ghost use Rattle.std.specs.Prelude.{◌≡◌, ◌++◌, IfOk, OnOk};
ghost use Rattle.thread_sync.specs.ChannelSights.{by_sights};
ghost use Rattle.thread_sync.specs.Sync.{uncovered_to};
ghost use Rattle.event_views.specs.Asked.{told_if};

use crate::recipient::Recipient;
use collections::ById;
use dispatch_types::Dispatch;
use intent_set::Kind;
use std::alloc::{AllocError, Global};
use thread_sync::{ChannelSight, uncovered_between, uncovered_by_sights};

// The sync of what the viewer's own member sees now and did not see before.
fn uncovered(
    alloc: Global,
    before: &ById<ChannelSight>,
    to: &Recipient<'_>,
) -> Result<Option<Dispatch>, AllocError>
    ensures { IfOk result (λ told. told ≡ uncovered_to (by_sights before.now) to.now.after to.now.me) }
{
    match to.sights_after {
        Some(now) => uncovered_between(alloc, before, now, to.after, to.me),
        None => uncovered_by_sights(alloc, before, to.after, to.me),
    }
}

/// Adds THREAD_LIST_SYNC of what the viewer's own member sees after a change of permissions and did
/// not see before, `before` being the sights of its channels then (Gateway Events, Thread List Sync).
pub fn add_list_sync(
    alloc: Global,
    before: &ById<ChannelSight>,
    to: &Recipient<'_>,
    list: &mut Vec<Dispatch>,
) -> Result<(), AllocError>
    ensures { OnOk result (list.new.items ≡ list.old.items
        ++ told_if to.now.viewer (uncovered_to (by_sights before.now) to.now.after to.now.me)) }
{
    if !to.asks(Kind::ThreadListSync, false) {
        return Ok(());
    }
    if let Some(gains) = uncovered(alloc, before, to)? {
        list.push(gains)?;
    }
    Ok(())
}
