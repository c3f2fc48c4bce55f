//! A list that ascends by id, with look-ups by binary search.

ghost use Rattle.std.specs.Prelude.{Some, ◌≡◌, ℕ, [], OnOk, OnErr, None, slice_get, is_some, IfOk, IsSome, length, map};
ghost use Rattle.std.specs.Option.{option_copied};
ghost use Rattle.std.specs.Fn.{CalledAt};
ghost use Rattle.std.specs.Vec.{vec_len, vec_capacity};
ghost use Rattle.std.specs.List.Retain.{IsFiltered};
ghost use Rattle.collections.specs.ById.{IsById, find_id, put_id, put_all, count_below, with_id, changed_id, without_id};

use crate::put_each::put_each;
use snowflake_id::Snowflake;
use std::alloc::{AllocError, Global};
use std::marker::Model;
use std::mem;

/// What has an id: the number that orders a list.
pub trait Keyed {
    ghost key: { Self → ℕ };

    fn key(&self) -> u64
        ensures { result ≡ key self.now };
}

/// A change of a record, which leaves its id.
pub trait Change<T: Keyed> {
    ghost changed: { Self → T → T };

    fn change(self, item: &mut T)
        ensures { item.new ≡ changed self item.old };

    ghost keeps_key: { (c : Self) (x : T) → T.key (changed c x) ≡ T.key x };
}

fn change_at<T: Keyed, C: Change<T> + Drop>(items: &mut Vec<T>, id: u64, change: C)
    requires { IsById T.key items.old.items }
    ensures { items.new.items ≡ changed_id T.key id (C.changed change) items.old.items }
{
    let place = place_of(items.as_slice(), id);
    if place >= items.len() {
        return;
    }
    let item = &mut items[place];
    if item.key() == id {
        change.change(item);
    }
}

pub(crate) fn replace_at<T: Keyed + Drop>(items: &mut Vec<T>, item: T)
    requires ascending { IsById T.key items.old.items }
    requires there { IsSome (find_id T.key (T.key item) items.old.items) }
    ensures set { items.new.items ≡ put_id T.key item items.old.items }
    ensures len { vec_len items.new ≡ vec_len items.old }
    ensures capacity { vec_capacity items.new ≡ vec_capacity items.old }
{
    let place = place_of(items.as_slice(), item.key());
    if place >= items.len() {
        return;
    }
    items[place] = item;
}

fn remove_at<T: Keyed + Drop>(items: &mut Vec<T>, id: u64)
    requires { IsById T.key items.old.items }
    ensures { items.new.items ≡ without_id T.key id items.old.items }
{
    let place = place_of(items.as_slice(), id);
    if place >= items.len() {
        return;
    }
    if items[place].key() == id {
        items.remove(place);
    }
}

fn change_each<T: Keyed, C: Change<T> + Copy>(items: &mut Vec<T>, change: C)
    ensures { items.new.items ≡ map (C.changed change) items.old.items }
{
    for item in items.iter_mut() {
        change.change(item);
    }
}

fn exchange_at<T: Keyed + Drop>(items: &mut Vec<T>, item: T) -> T
    requires ascending { IsById T.key items.old.items }
    requires there { IsSome (find_id T.key (T.key item) items.old.items) }
    ensures given { find_id T.key (T.key item) items.old.items ≡ Some result }
    ensures set { items.new.items ≡ put_id T.key item items.old.items }
{
    let place = place_of(items.as_slice(), item.key());
    if place >= items.len() {
        return item;
    }
    mem::replace(&mut items[place], item)
}

/// A list of records, ascending by id.
pub struct ById<T: Keyed + Drop> {
    items: Vec<T>,
}

impl<T: Keyed + Drop> Drop for ById<T> {
    fn drop(self) {
        let ById { items } = self;
        drop(items);
    }
}

impl<T: Keyed + Drop> Model for ById<T> {
    ghost use Rattle.std.specs.Prelude.{List};

    ghost Value = { List T };

    ghost use Rattle.collections.specs.ById.{IsById};

    ghost view = { λ a. a.items.items };

    ghost invariant = { λ a. IsById T.key a.items.items };
}

// How many of the records have a smaller id.
pub(crate) fn place_of<T: Keyed>(items: &[T], id: u64) -> usize
    requires { IsById T.key items.now }
    ensures { result ≡ count_below T.key id items.now }
{
    items.partition_point(|x| x.key() < id)
}

// The record at a place, if it has the id.
fn record_at<T: Keyed>(items: &[T], place: usize, id: u64) -> Option<&T>
    ensures { option_copied result ≡ with_id T.key id (slice_get items.now place) }
{
    if place >= items.len() {
        return None;
    }
    let found = &items[place];
    if found.key() == id { Some(found) } else { None }
}

/// The record of an id in a slice that ascends, by binary search. `None` exactly if there is none.
pub fn find<T: Keyed>(items: &[T], id: u64) -> Option<&T>
    requires { IsById T.key items.now }
    ensures { option_copied result ≡ find_id T.key id items.now }
{
    let place = place_of(items, id);
    record_at(items, place, id)
}

impl<T: Keyed + Drop> ById<T> {
    /// An empty list. Does not allocate.
    pub fn new(alloc: Global) -> Self
        ensures { result ≡ [] }
    {
        ById {
            items: Vec::new(alloc),
        }
    }

    /// The items, by id.
    pub fn as_slice(&self) -> &[T]
        ensures items { result.now ≡ self.now }
        ensures ascending { IsById T.key self.now }
    {
        self.items.as_slice()
    }

    /// A list that ascends already.
    pub fn from_ascending(items: Vec<T>) -> Self
        requires { IsById T.key items.items }
        ensures { result ≡ items.items }
    {
        ById { items }
    }

    /// A list of these records; of several with one id the last.
    pub fn of(alloc: Global, items: Vec<T>) -> Result<Self, AllocError>
        ensures { IfOk result (λ list. list ≡ put_all T.key [] items.items) }
    {
        let mut list = ById::new(alloc);
        list.put_all(items)?;
        Ok(list)
    }

    /// Whether an item has this id.
    pub fn contains(&self, id: u64) -> bool
        ensures { result ≡ is_some (find_id T.key id self.now) }
    {
        self.get(id).is_some()
    }

    /// The record of an id. `None` exactly if there is none.
    pub fn get(&self, id: u64) -> Option<&T>
        ensures { option_copied result ≡ find_id T.key id self.now }
    {
        find(self.items.as_slice(), id)
    }

    /// Adds a record that does not exist yet, in its place. An `Err` changes nothing.
    pub fn insert(&mut self, item: T) -> Result<(), AllocError>
        requires { find_id T.key (T.key item) self.old ≡ None }
        ensures ok { OnOk result (self.new ≡ put_id T.key item self.old) }
        ensures err { OnErr result (self.new ≡ self.old) }
    {
        let place = place_of(self.items.as_slice(), item.key());
        self.items.insert(place, item)?;
        Ok(())
    }

    /// How many records there are.
    pub fn len(&self) -> usize
        ensures { result ≡ length self.now }
    {
        self.items.len()
    }

    /// Sets a record: in the place of the one with its id, or as a new one. An `Err` changes nothing.
    pub fn put(&mut self, item: T) -> Result<(), AllocError>
        ensures ok { OnOk result (self.new ≡ put_id T.key item self.old) }
        ensures err { OnErr result (self.new ≡ self.old) }
    {
        if self.contains(item.key()) {
            self.replace(item);
            Ok(())
        } else {
            self.insert(item)
        }
    }

    /// Sets each of these records in turn. An `Err` changes nothing.
    pub fn put_all(&mut self, items: Vec<T>) -> Result<(), AllocError>
        ensures ok { OnOk result (self.new ≡ put_all T.key self.old items.items) }
        ensures err { OnErr result (self.new ≡ self.old) }
    {
        put_each(&mut self.items, items)?;
        Ok(())
    }

    /// Sets a record in the place of the one with its id, which is there.
    pub fn replace(&mut self, item: T)
        requires { IsSome (find_id T.key (T.key item) self.old) }
        ensures { self.new ≡ put_id T.key item self.old }
    {
        replace_at(&mut self.items, item);
    }

    /// Sets a record in the place of the one with its id, which is there, and hands that one out.
    pub fn exchange(&mut self, item: T) -> T
        requires { IsSome (find_id T.key (T.key item) self.old) }
        ensures given { find_id T.key (T.key item) self.old ≡ Some result }
        ensures set { self.new ≡ put_id T.key item self.old }
    {
        exchange_at(&mut self.items, item)
    }

    /// Keeps the records at which a test is true.
    pub fn retain<F: FnMut(&T) -> bool>(&mut self, keep: F)
        requires { F.IsAlwaysCallable keep }
        ensures filtered { IsFiltered (CalledAt F.FnMut) keep self.old self.new }
        ensures ascending { IsById T.key self.old }
    {
        self.items.retain(keep);
    }

    /// Removes the record of an id, if there is one.
    pub fn remove(&mut self, id: u64)
        ensures { self.new ≡ without_id T.key id self.old }
    {
        remove_at(&mut self.items, id);
    }

    /// Changes every record.
    pub fn change_all<C: Change<T> + Copy>(&mut self, change: C)
        ensures { self.new ≡ map (C.changed change) self.old }
    {
        change_each(&mut self.items, change);
    }

    /// Changes the record of an id, if there is one.
    pub fn change<C: Change<T> + Drop>(&mut self, id: u64, change: C)
        ensures { self.new ≡ changed_id T.key id (C.changed change) self.old }
    {
        change_at(&mut self.items, id, change);
    }
}

impl<T: Keyed + Copy> ById<T> {
    /// A copy of the list.
    pub fn copy(&self, alloc: Global) -> Result<Self, AllocError>
        ensures { IfOk result (λ copy. copy ≡ self.now) }
    {
        let items = Vec::from_slice(alloc, self.items.as_slice())?;
        Ok(ById { items })
    }
}

/// What can be copied, at the cost of memory.
pub trait Duplicate: Sized {
    fn duplicate(&self, alloc: Global) -> Result<Self, AllocError>
        ensures { IfOk result (λ copy. copy ≡ self.now) };
}

impl<T: Keyed + Drop + Duplicate> ById<T> {
    /// A list of copies.
    pub fn duplicate(&self, alloc: Global) -> Result<Self, AllocError>
        ensures { IfOk result (λ copy. copy ≡ self.now) }
    {
        let items = copies(alloc, self.items.as_slice())?;
        Ok(ById { items })
    }
}

/// Copies of all items.
pub fn copies<T: Duplicate + Drop>(alloc: Global, items: &[T]) -> Result<Vec<T>, AllocError>
    ensures { IfOk result (λ copy. copy.items ≡ items.now) }
{
    let mut copy = Vec::with_capacity(alloc, items.len())?;
    for item in items {
        copy.push(item.duplicate(alloc)?)?;
    }
    Ok(copy)
}

/// A list of ids ascends by itself.
impl Keyed for Snowflake {
    ghost key = { λ id. id };

    fn key(&self) -> u64 {
        self.0
    }
}
