//! The posts of two actors, and the passes at them.

ghost use Rattle.std.specs.Prelude.{◌≡◌, ◌≤◌, ◌∷◌, [], map, length, IfOk};
ghost use Rattle.std.specs.List.{range_with_len};
ghost use Rattle.edit_post.specs.Post.{new_sender, new_taker};
ghost use Rattle.run_stage.specs.Posts.{HasPosts};

use crate::dealing::pairs;
use edit_post::{Post, SendPass, TakePass};
use std::alloc::{AllocError, Global};
use std::collections::VecDeque;

/// The posts of two actors, of which no pass knows anything yet.
pub struct OpenPosts<R: Drop> {
    /// The posts.
    pub posts: Vec<Post<R>>,
    /// The pass of each actor.
    pub takers: (TakePass, TakePass),
    /// Of each sender, in order, its pass at each post.
    pub passes: VecDeque<Vec<SendPass>>,
}

// One call drops them, so that no crate above proves the drop of what they hold again.
impl<R: Drop> Drop for OpenPosts<R> {
    fn drop(self) {
        let OpenPosts {
            posts,
            takers,
            passes,
        } = self;
        drop(posts);
        drop(takers);
        drop(passes);
    }
}

impl<R: Drop> OpenPosts<R> {
    ghost use Rattle.std.specs.Prelude.{◌≡◌};

    /// The posts, the passes of the actors, and those of the senders. It does not allocate.
    pub fn into_parts(self) -> (Vec<Post<R>>, (TakePass, TakePass), VecDeque<Vec<SendPass>>)
        ensures { (result.0 ≡ self.posts) × (result.1 ≡ self.takers) × (result.2 ≡ self.passes) }
    {
        let OpenPosts {
            posts,
            takers,
            passes,
        } = self;
        (posts, takers, passes)
    }
}

// A post of so many senders.
fn open_post<R: Drop>(
    rt: R,
    alloc: Global,
    senders: u8,
) -> Result<(Post<R>, Vec<SendPass>, TakePass), AllocError>
    requires { (1 ≤ senders) × (senders ≤ 16) }
    ensures taker { IfOk result (λ r. r.2 ≡ new_taker r.0 senders) }
    ensures many { IfOk result (λ r. length r.1.items ≡ senders) }
    ensures senders { IfOk result (λ r. r.1.items ≡ map (new_sender r.0) (range_with_len 0 senders)) }
{
    let (post, passes, taker) = Post::make(rt, alloc, senders)?;
    Ok((post, passes, taker))
}

// A list of both posts.
fn both<R: Drop>(alloc: Global, first: Post<R>, second: Post<R>) -> Result<Vec<Post<R>>, AllocError>
    ensures { IfOk result (λ posts. posts.items ≡ first ∷ second ∷ []) }
{
    let mut posts = Vec::new(alloc);
    posts.push(first)?;
    posts.push(second)?;
    Ok(posts)
}

/// Opens two posts of so many senders.
///
/// # Errors
/// Out of memory.
pub fn open_posts<R: Copy + Drop>(
    rt: R,
    alloc: Global,
    senders: u8,
) -> Result<OpenPosts<R>, AllocError>
    requires { (1 ≤ senders) × (senders ≤ 16) }
    ensures { IfOk result (λ o. HasPosts senders o.posts.items o.takers o.passes.items) }
{
    let (post, its_passes, first) = open_post(rt, alloc, senders)?;
    let (other_post, other_passes, second) = open_post(rt, alloc, senders)?;
    let posts = both(alloc, post, other_post)?;
    let passes = pairs(alloc, its_passes, other_passes)?;
    Ok(OpenPosts {
        posts,
        takers: (first, second),
        passes,
    })
}
