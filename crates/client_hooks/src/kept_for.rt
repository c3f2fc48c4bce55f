//! A kept hook with the kinds that it is for.

use crate::kept::Kept;
use crate::kind_set::KindSet;

/// A hook, and the kinds of dispatches at which it is called.
#[derive(Drop)]
pub struct KeptFor<R> {
    pub kinds: KindSet,
    pub kept: Kept<R>,
}
