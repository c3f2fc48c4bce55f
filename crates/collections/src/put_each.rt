//! Sets many items in a list by id at once: the room is made first, so out of memory leaves the
//! list as it was.

ghost use Rattle.std.specs.Prelude.{◌≡◌, ◌+◌, ◌<◌, ◌≤◌, None, OnOk, OnErr};
ghost use Rattle.std.specs.Vec.{vec_len, vec_capacity};
ghost use Rattle.collections.specs.ById.{IsById, find_id, put_id, put_all};

use crate::by_id::{Keyed, find, place_of, replace_at};
use std::alloc::AllocError;

// Adds a record that does not exist yet, where there is room for it.
fn insert_within<T: Keyed + Drop>(items: &mut Vec<T>, item: T)
    requires ascending { IsById T.key items.old.items }
    requires missing { find_id T.key (T.key item) items.old.items ≡ None }
    requires room { vec_len items.old < vec_capacity items.old }
    ensures set { items.new.items ≡ put_id T.key item items.old.items }
    ensures len { vec_len items.new ≤ vec_len items.old + 1 }
    ensures capacity { vec_capacity items.old ≤ vec_capacity items.new }
{
    let place = place_of(items.as_slice(), item.key());
    let _ = items.insert(place, item);
}

// Sets a record where there is room for one more.
fn put_within<T: Keyed + Drop>(items: &mut Vec<T>, item: T)
    requires ascending { IsById T.key items.old.items }
    requires room { vec_len items.old < vec_capacity items.old }
    ensures set { items.new.items ≡ put_id T.key item items.old.items }
    ensures len { vec_len items.new ≤ vec_len items.old + 1 }
    ensures capacity { vec_capacity items.old ≤ vec_capacity items.new }
{
    if find(items.as_slice(), item.key()).is_some() {
        replace_at(items, item);
    } else {
        insert_within(items, item);
    }
}

// Sets each of these records in turn. The room for them is made first, so an `Err` changes nothing.
pub(crate) fn put_each<T: Keyed + Drop>(items: &mut Vec<T>, more: Vec<T>) -> Result<(), AllocError>
    requires { IsById T.key items.old.items }
    ensures ok { OnOk result (items.new.items ≡ put_all T.key items.old.items more.items) }
    ensures err { OnErr result (items.new.items ≡ items.old.items) }
{
    items.reserve(more.len())?;
    for item in more {
        put_within(items, item);
    }
    Ok(())
}
