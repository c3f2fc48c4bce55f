//! A shelf, on which a part that brings its place is put without memory.
ghost use Rattle.std.specs.Prelude.{◌≡◌, ◌++◌, ◌∷◌, [], IfOk};
ghost use Rattle.gate_outside.specs.Shelves.{part_at};

use std::alloc::{AllocError, Global};
use std::marker::Model;

/// A part at its place. On a shelf another lies below it.
#[derive(Drop)]
pub struct Place<T: Drop> {
    /// The part.
    pub part: T,
    below: Option<Box<Place<T>>>,
}

impl<T: Drop> Place<T> {
    /// A place for that part.
    pub fn new(alloc: Global, part: T) -> Result<Box<Place<T>>, AllocError>
        ensures { IfOk result (λ p. part_at p.value ≡ part) }
    {
        let place = Place { part, below: None };
        Ok(Box::new(alloc, place)?)
    }
}

/// Parts in the order in which they were put. Contracts see their list.
#[derive(Drop)]
pub struct Shelf<T: Drop> {
    top: Option<Box<Place<T>>>,
}

impl<T: Drop> Model for Shelf<T> {
    ghost use Rattle.std.specs.Prelude.{List};
    ghost use Rattle.gate_outside.specs.Shelves.{all_on};

    ghost Value = { List T };

    ghost view = { λ s. all_on s.top };
}

impl<T: Drop> Shelf<T> {
    /// An empty shelf.
    pub fn new() -> Shelf<T>
        ensures { result ≡ [] }
    {
        Shelf { top: None }
    }

    /// Puts a part on top. It does not allocate.
    pub fn put(&mut self, place: Box<Place<T>>)
        ensures { self.new ≡ self.old ++ part_at place.value ∷ [] }
    {
        let mut place = place;
        place.below = self.top.take();
        self.top = Some(place);
    }
}
