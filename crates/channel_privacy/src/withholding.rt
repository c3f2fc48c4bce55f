//! What an edit tells where channels are withheld.

ghost use Rattle.std.specs.Prelude.{◌≡◌, ◌++◌, IfOk, OnOk, option_to_list, filter, flat_map, not};
ghost use Rattle.guild_model.specs.Sight.{standing};
ghost use Rattle.channel_privacy.specs.Withheld.{told_shown, is_sync, is_no_sync};
ghost use Rattle.channel_privacy.specs.ByNote.{showing_by, rows_by, withheld_by};

use crate::before::ShownBefore;
use crate::losses::{add_gains, add_losses};
use crate::told::told;
use dispatch_types::Dispatch;
use event_views::Recipient;
use overwrite_eval::StandingRef;
use std::alloc::{AllocError, Global};

fn is_sync(dispatch: &Dispatch) -> bool
    ensures { result ≡ is_sync dispatch.now }
{
    match dispatch {
        Dispatch::ThreadListSync(_) => true,
        _ => false,
    }
}

// An edit's own dispatches, and the THREAD_LIST_SYNC after them.
#[derive(Drop)]
struct Parts {
    rows: Vec<Dispatch>,
    syncs: Vec<Dispatch>,
}

fn apart(alloc: Global, list: Vec<Dispatch>) -> Result<Parts, AllocError>
    ensures rows { IfOk result (λ parts. parts.rows.items ≡ filter is_no_sync list.items) }
    ensures syncs { IfOk result (λ parts. parts.syncs.items ≡ filter is_sync list.items) }
{
    let mut parts = Parts {
        rows: Vec::new(alloc),
        syncs: Vec::new(alloc),
    };
    for dispatch in list {
        if is_sync(&dispatch) {
            parts.syncs.push(dispatch)?;
        } else {
            parts.rows.push(dispatch)?;
        }
    }
    Ok(parts)
}

// The edit's own dispatches as they are told.
fn told_rows(
    alloc: Global,
    was: &ShownBefore,
    private: bool,
    standing: &StandingRef<'_>,
    rows: Vec<Dispatch>,
) -> Result<Vec<Dispatch>, AllocError>
    ensures { IfOk result (λ list. list.items ≡ flat_map (told_shown (showing_by was.now private standing.now)) rows.items) }
{
    let mut list = Vec::new(alloc);
    for row in rows {
        if let Some(dispatch) = told(was, private, standing, row) {
            list.push(dispatch)?;
        }
    }
    Ok(list)
}

/// The list of an edit where channels are withheld, of a list that hides nothing: by what was noted before the
/// edit, and the record after it. Of the edit's own dispatches those that tell of shown channels stay, then come
/// the channels that are lost and those that are gained, then THREAD_LIST_SYNC.
///
/// # Errors
/// Out of memory.
pub fn withhold(
    alloc: Global,
    was: &ShownBefore,
    to: &Recipient<'_>,
    list: Vec<Dispatch>,
) -> Result<Vec<Dispatch>, AllocError>
    ensures { IfOk result (λ told. told.items
        ≡ withheld_by was.now to.now.after.private to.now.after to.now.me to.now.viewer list.items) }
{
    let after = to.after;
    let private = after.private;
    let standing = StandingRef::in_guild(after, to.me);
    let Parts { rows, mut syncs } = apart(alloc, list)?;
    let mut told = told_rows(alloc, was, private, &standing, rows)?;
    add_losses(alloc, was, private, to, &mut told)?;
    add_gains(alloc, was, private, to, &mut told)?;
    told.append(&mut syncs)?;
    Ok(told)
}
