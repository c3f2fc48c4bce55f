//! An edit that has entered a log.

ghost use Rattle.std.specs.Prelude.{◌≡◌, IfOk};
ghost use Rattle.std.specs.Arc.{arc_value};

use edit_apply::Edit;
use std::alloc::{AllocError, Global};
use std::marker::Model;
use std::sync::Arc;

/// An entry of a log. Its owners share one edit, and a clause sees the edit.
pub struct Entry {
    edit: Arc<Edit>,
}

// One call drops it, so that no crate above proves the drop of each of its parts again.
impl Drop for Entry {
    fn drop(self) {
        let Entry { edit } = self;
        drop(edit);
    }
}

impl Model for Entry {
    ghost use Rattle.std.specs.Arc.{arc_value};
    ghost use Rattle.edit_apply.specs.declared.Edit.{Edit};

    ghost Value = { Edit };

    ghost view = { λ e. arc_value e.edit };
}

impl Entry {
    /// An entry with this edit.
    ///
    /// # Errors
    /// Out of memory.
    pub fn new(alloc: Global, edit: Edit) -> Result<Entry, AllocError>
        ensures { IfOk result (λ entry. entry ≡ edit) }
    {
        Ok(Entry {
            edit: Arc::new(alloc, edit)?,
        })
    }

    /// The same entry, with one more owner. It does not allocate.
    ///
    /// # Errors
    /// There are too many owners to count.
    pub fn again(&self) -> Result<Entry, AllocError>
        ensures { IfOk result (λ entry. entry ≡ self.now) }
    {
        Ok(Entry {
            edit: Arc::try_clone(&self.edit)?,
        })
    }

    /// The entry's edit, which its owners share.
    pub fn edit(&self) -> &Edit
        ensures { result.now ≡ self.now }
    {
        &self.edit
    }

    /// An edit of one's own that is equal to the entry's.
    ///
    /// # Errors
    /// Out of memory.
    pub fn copy(&self, alloc: Global) -> Result<Edit, AllocError>
        ensures { IfOk result (λ edit. edit ≡ self.now) }
    {
        self.edit().copy(alloc)
    }
}
