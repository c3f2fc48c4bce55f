//! What all parts of a run share.

ghost use Rattle.std.specs.Prelude.{◌≡◌, IfOk};

use edit_post::Post;
use gate_parts::{Posts, StartWord};
use std::alloc::{AllocError, Global};
use std::sync::Wait;

/// What all parts of a run share: the handle, the posts, and the word by which they begin.
pub struct Ground<R: Drop> {
    pub rt: R,
    pub alloc: Global,
    pub posts: Posts<R>,
    pub word: StartWord,
}

// One call drops it, so that no crate above proves the drop of what it holds again.
impl<R: Drop> Drop for Ground<R> {
    fn drop(self) {
        let Ground {
            rt,
            alloc: _,
            posts,
            word,
        } = self;
        drop(rt);
        drop(posts);
        drop(word);
    }
}

impl<R: Wait + Copy + Drop> Ground<R> {
    /// What the parts share that send to these posts.
    ///
    /// # Errors
    /// Out of memory.
    pub fn new(rt: R, alloc: Global, posts: Vec<Post<R>>) -> Result<Ground<R>, AllocError>
        ensures { IfOk result (λ ground. ground.posts ≡ posts.items) }
    {
        let word = StartWord::new(alloc)?;
        let posts = Posts::new(alloc, posts)?;
        Ok(Ground {
            rt,
            alloc,
            posts,
            word,
        })
    }

    /// Another share of it.
    ///
    /// # Errors
    /// Out of memory.
    pub fn share(&self) -> Result<Ground<R>, AllocError>
        ensures { IfOk result (λ ground. ground.posts ≡ self.now.posts) }
    {
        let posts = self.posts.share()?;
        let word = self.word.share()?;
        Ok(Ground {
            rt: self.rt,
            alloc: self.alloc,
            posts,
            word,
        })
    }

    /// The handles, the posts and the word. It does not allocate.
    pub fn into_parts(self) -> (R, Global, Posts<R>, StartWord)
        ensures { (result.0 ≡ self.rt) × (result.2 ≡ self.posts) × (result.3 ≡ self.word) }
    {
        let Ground {
            rt,
            alloc,
            posts,
            word,
        } = self;
        (rt, alloc, posts, word)
    }
}
