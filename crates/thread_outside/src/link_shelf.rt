//! What is kept of links that are back, on a shelf that does not allocate to put one more on.
ghost use Rattle.std.specs.Prelude.{◌≡◌, ◌++◌, ◌∷◌, [], IfOk};
ghost use Rattle.thread_outside.specs.Shelves.{kept_at, new_place};

use crate::kept_tale::KeptTale;
use std::alloc::{AllocError, Global};
use std::marker::Model;

// What is kept of what came over a link and went out, and its count of faults, with what lies below it,
// where it lies on a shelf.
pub(crate) struct Place {
    pub(crate) tale: KeptTale,
    pub(crate) faults: u64,
    below: Option<Box<Place>>,
}

impl Drop for Place {
    fn drop(self) {
        let Place {
            tale,
            faults: _,
            below,
        } = self;
        drop(tale);
        drop(below);
    }
}

impl Place {
    // A place of a link before its first call.
    pub(crate) fn new(alloc: Global) -> Result<Box<Place>, AllocError>
        ensures { IfOk result (λ p. kept_at p.value ≡ new_place) }
    {
        let place = Place {
            tale: KeptTale::of_lists(Vec::new(alloc), Vec::new(alloc)),
            faults: 0,
            below: None,
        };
        Ok(Box::new(alloc, place)?)
    }
}

/// What is kept of the links that are back, in order.
pub(crate) struct Shelf {
    top: Option<Box<Place>>,
}

impl Drop for Shelf {
    fn drop(self) {
        let Shelf { top } = self;
        drop(top);
    }
}

impl Model for Shelf {
    ghost use Rattle.std.specs.Prelude.{List};
    ghost use Rattle.gate_outside.specs.Links.{ReturnedLink};
    ghost use Rattle.thread_outside.specs.Shelves.{all_on};

    ghost Value = { List ReturnedLink };

    ghost view = { λ s. all_on s.top };
}

impl Shelf {
    // An empty shelf.
    pub(crate) fn new() -> Shelf
        ensures { result ≡ [] }
    {
        Shelf { top: None }
    }

    // Puts a place on top.
    pub(crate) fn put(&mut self, place: Box<Place>)
        ensures { self.new ≡ self.old ++ kept_at place.value ∷ [] }
    {
        let mut place = place;
        place.below = self.top.take();
        self.top = Some(place);
    }
}
