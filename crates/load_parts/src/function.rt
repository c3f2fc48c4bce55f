//! Functions as values of a type.

use std::marker::PhantomData;

/// A function.
pub trait Function {
    /// What it is called with.
    type Input;

    /// What it gives.
    type Output;

    /// With what it may be called.
    ghost accepts: { Self → Self.Input → Type 0 };

    /// What it may give.
    ghost gives: { Self → Self.Input → Self.Output → Type 0 };

    /// Calls it.
    fn call(&self, input: Self::Input) -> Self::Output
        requires { accepts self.now input }
        ensures { gives self.now input result };
}

/// A closure, of which a type with facts on it can be made, as it can't of the bare closure.
#[derive(Drop)]
pub struct Closure<A, B, F> {
    closure: F,
    of: PhantomData<(A, B)>,
}

impl<A, B, F: Fn(A) -> B> Closure<A, B, F> {
    ghost use Rattle.std.specs.Prelude.{◌≡◌};

    /// This closure.
    pub fn new(closure: F) -> Closure<A, B, F>
        ensures { result.closure ≡ closure }
    {
        Closure {
            closure,
            of: PhantomData,
        }
    }
}

impl<A, B, F: Fn(A) -> B> Function for Closure<A, B, F> {
    type Input = A;

    type Output = B;

    ghost accepts = { λ c input. F.pre c.closure input };

    ghost gives = { λ c input output. F.post c.closure input output };

    fn call(&self, input: A) -> B {
        (self.closure)(input)
    }
}
