//! The edit that a client asks for.

ghost use Rattle.std.specs.Prelude.{◌≡◌, IfOk};

use edit_apply::Edit;
use std::alloc::{AllocError, Global};
use std::marker::Model;

/// The edit that a client asks for, in memory of its own, so that an output is small. A clause sees the
/// edit.
pub struct WishedEdit {
    inner: Box<Edit>,
}

impl Drop for WishedEdit {
    fn drop(self) {
        let WishedEdit { inner } = self;
        drop(inner);
    }
}

impl Model for WishedEdit {
    ghost use Rattle.edit_apply.specs.declared.Edit.{Edit};

    ghost Value = { Edit };

    ghost view = { λ w. w.inner.value };
}

impl WishedEdit {
    /// This edit, which is moved.
    pub fn new(alloc: Global, edit: Edit) -> Result<WishedEdit, AllocError>
        ensures { IfOk result (λ wished. wished ≡ edit) }
    {
        let inner = Box::new(alloc, edit)?;
        Ok(WishedEdit { inner })
    }

    /// The edit.
    pub fn edit(&self) -> &Edit
        ensures { result.now ≡ self.now }
    {
        self.inner.as_ref()
    }

    /// The edit, which is moved.
    pub fn into_edit(self) -> Edit
        ensures { result ≡ self }
    {
        let WishedEdit { inner } = self;
        Box::into_inner(inner)
    }
}
