//! The posts of all actors.
ghost use Rattle.std.specs.Prelude.{◌≡◌, IfOk};

use edit_post::Post;
use std::alloc::{AllocError, Global};
use std::marker::Model;
use std::sync::Arc;
use wake_bell::Bell;

// What the parts of a run share.
struct Office<R: Drop> {
    posts: Vec<Post<R>>,
    shown: Bell,
}

impl<R: Drop> Drop for Office<R> {
    fn drop(self) {
        let Office { posts, shown } = self;
        drop(posts);
        drop(shown);
    }
}

/// The posts of all actors, in order, with a bell that every actor rings. Each part of a run has a share
/// of them.
pub struct Posts<R: Drop> {
    office: Arc<Office<R>, Global>,
}

impl<R: Drop> Drop for Posts<R> {
    fn drop(self) {
        let Posts { office } = self;
        drop(office);
    }
}

impl<R: Drop> Model for Posts<R> {
    ghost use Rattle.std.specs.Prelude.{List};
    ghost use Rattle.std.specs.Arc.{arc_value};
    ghost use Rattle.edit_post.specs.Post.{PostId};

    ghost Value = { List PostId };

    ghost view = { λ p. (arc_value p.office).posts.items };
}

impl<R: Drop> Posts<R> {
    /// These posts.
    ///
    /// # Errors
    /// Out of memory.
    pub fn new(alloc: Global, posts: Vec<Post<R>>) -> Result<Posts<R>, AllocError>
        ensures { IfOk result (λ made. made ≡ posts.items) }
    {
        let office = Office {
            posts,
            shown: Bell::new(),
        };
        Ok(Posts {
            office: Arc::new(alloc, office)?,
        })
    }

    /// Another share of the same posts.
    ///
    /// # Errors
    /// Out of memory.
    pub fn share(&self) -> Result<Posts<R>, AllocError>
        ensures { IfOk result (λ shared. shared ≡ self.now) }
    {
        Ok(Posts {
            office: Arc::try_clone(&self.office)?,
        })
    }

    /// The posts. The call does not allocate.
    pub fn as_slice(&self) -> &[Post<R>]
        ensures { result.now ≡ self.now }
    {
        self.office.posts.as_slice()
    }

    /// The bell that each actor rings when it has published, and at which the workers rest.
    pub fn shown(&self) -> &Bell {
        &self.office.shown
    }
}
