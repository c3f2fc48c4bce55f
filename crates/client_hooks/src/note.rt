//! What is noted of a call of a hook.

/// A hook was called at a dispatch.
#[derive(Clone, Copy, PartialEq, Eq, Debug)]
pub struct HookNote {
    /// The hook's place among all that are kept, from 0.
    pub hook: u32,
    /// The dispatch's number.
    pub number: u64,
    /// What the hook answered.
    pub value: u64,
}
