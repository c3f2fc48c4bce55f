//! A function that a bot's author keeps.

ghost use Rattle.std.specs.Prelude.{◌≡◌, ℕ};
ghost use Rattle.std.specs.Fn.{FnReturnsAt};

use crate::rule::HookRule;
use dispatch_types::Dispatch;
use std::marker::PhantomData;

/// A function from a dispatch to a number.
pub type Hook = Box<dyn Fn(&Dispatch) -> u64>;

/// A hook that may be called at every dispatch. It can be made only of a hook whose answers meet
/// the rule `R`.
#[derive(Drop)]
pub struct Kept<R> {
    hook: Hook,
    rule: PhantomData<R>,
    ghost callable: { Hook.IsAlwaysCallable hook },
}

impl<R: HookRule> Kept<R> {
    ghost use Rattle.client_hooks.specs.Calls.{Keeps};

    /// Keeps a hook, each answer of which meets the rule.
    pub fn new(hook: Hook) -> Kept<R>
        requires callable { Hook.IsAlwaysCallable hook }
        requires keeps { Keeps (FnReturnsAt Hook.Fn hook) R.Meets }
        ensures hook { result.hook ≡ hook }
        ensures keeps { Keeps (FnReturnsAt Hook.Fn result.hook) R.Meets }
    {
        Kept {
            hook,
            rule: PhantomData,
        }
    }
}

impl<R> Kept<R> {
    /// The hook's answer to a dispatch.
    pub(crate) fn answer(&self, dispatch: &Dispatch) -> u64
        ensures { FnReturnsAt Hook.Fn self.now.hook dispatch.now result }
    {
        (self.hook)(dispatch)
    }
}
