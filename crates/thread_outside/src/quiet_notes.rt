//! Notes that nobody keeps.
ghost use Rattle.std.specs.Prelude.{◌≡◌, Ok, None};

use gate_outside::notes::Notes;
use std::alloc::AllocError;

/// Keeps nothing and tells nothing.
#[derive(Drop)]
pub struct QuietNotes;

impl<I> Notes<I> for QuietNotes {
    ghost noted = { λ _. None };

    fn note(&mut self, _input: &I) -> Result<(), AllocError>
        ensures { result ≡ Ok tt }
    {
        Ok(())
    }
}
