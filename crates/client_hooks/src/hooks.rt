//! The hooks of a bot.

ghost use Rattle.std.specs.Prelude.{◌≡◌, ℕ, ◌<◌, ◌≤◌, ◌^◌, ◌-◌, ◌++◌, ◌∷◌, [], ◌↔◌, IsTrue, length, MatchResult, IfOk};
ghost use Rattle.std.specs.List.{AllZip};
ghost use Rattle.std.specs.Fn.{FnReturnsAt};

use crate::kept::{Hook, Kept};
use crate::kept_for::KeptFor;
use crate::kind_set::KindSet;
use crate::note::HookNote;
use crate::rule::HookRule;
use dispatch_types::Dispatch;
use std::alloc::{AllocError, Global};

/// The most hooks that are kept.
const MOST_HOOKS: usize = (1 << 32) - 1;

/// The hooks of a bot, in the order in which they were kept. The answers of each meet the rule `R`.
#[derive(Drop)]
pub struct Hooks<R> {
    alloc: Global,
    hooks: Vec<KeptFor<R>>,
    ghost numbered: { length hooks.items ≤ 2 ^ 32 - 1 },
}

impl<R> Hooks<R> {
    /// No hooks yet.
    pub fn new(alloc: Global) -> Hooks<R>
        ensures { result.hooks.items ≡ [] }
    {
        Hooks {
            alloc,
            hooks: Vec::new(alloc),
        }
    }

    /// Whether no further hook can be kept: there are 2^32 - 1.
    pub fn is_full(&self) -> bool
        ensures { IsTrue result ↔ (2 ^ 32 - 1 ≤ length self.now.hooks.items) }
    {
        self.hooks.len() >= MOST_HOOKS
    }

    /// Keeps a hook for these kinds, after all others.
    ///
    /// # Errors
    /// Out of memory, which hands the hook back and changes nothing.
    pub fn on(&mut self, kinds: KindSet, hook: Kept<R>) -> Result<(), (Kept<R>, AllocError)>
        requires { length self.old.hooks.items < 2 ^ 32 - 1 }
        ensures { MatchResult result
            (λ _. self.new.hooks.items
            ≡ self.old.hooks.items ++ record { kinds = kinds; kept = hook } ∷ [])
            (λ back. (back.0 ≡ hook) × (self.new.hooks.items ≡ self.old.hooks.items)) }
    {
        match self.hooks.push(KeptFor { kinds, kept: hook }) {
            Ok(()) => Ok(()),
            Err(failed) => {
                let KeptFor { kept, .. } = failed.value;
                Err((kept, AllocError))
            }
        }
    }
}

impl<R: HookRule> Hooks<R> {
    ghost use Rattle.dispatch_types.specs.Kinds.{kind_of};
    ghost use Rattle.client_hooks.specs.Calls.{called, IsNoteOf};

    /// Calls each hook that is for the dispatch's kind once, in the order in which they were kept,
    /// and notes its answer.
    ///
    /// # Errors
    /// Out of memory.
    pub fn run(&self, dispatch: &Dispatch, number: u64) -> Result<Vec<HookNote>, AllocError>
        ensures { IfOk result (λ notes. AllZip
            (IsNoteOf (λ it. FnReturnsAt Hook.Fn it.kept.hook) R.Meets dispatch.now number)
            (called (λ it. it.kinds) (kind_of dispatch.now) self.now.hooks.items)
            notes.items) }
    {
        let kind = dispatch.kind();
        let mut notes = Vec::new(self.alloc);
        let mut hook = 0u32;
        for entry in self.hooks.as_slice() {
            if entry.kinds.has(kind) {
                let value = entry.kept.answer(dispatch);
                notes.push(HookNote {
                    hook,
                    number,
                    value,
                })?;
            }
            hook += 1;
        }
        Ok(notes)
    }
}
