//! Notes of what a worker was given.
ghost use Rattle.std.specs.Prelude.{◌≡◌, List, OnOk, OnErr};
ghost use Rattle.std.specs.declared.option.Option.{Option};
ghost use Rattle.gate_outside.specs.Told.{GrowsBy};

use std::alloc::AllocError;

/// Takes notes of inputs.
pub trait Notes<I> {
    /// The inputs that were noted, in order, where it tells.
    ghost noted: { Self → Option (List I) };

    /// Notes an input. An `Err` is out of memory and notes nothing.
    fn note(&mut self, input: &I) -> Result<(), AllocError>
        ensures ok { OnOk result (GrowsBy (noted self.old) (noted self.new) input.now) }
        ensures err { OnErr result (noted self.new ≡ noted self.old) };
}
