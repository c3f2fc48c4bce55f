//! What a hook's author promises of its answers.

ghost use Rattle.std.specs.Prelude.{ℕ};
ghost use Rattle.dispatch_types.specs.declared.dispatch.Dispatch.{Dispatch};

/// Names a relation between a dispatch and a number, which each answer of a kept hook meets.
pub trait HookRule {
    ghost Meets: { Dispatch → ℕ → Type 0 };
}
