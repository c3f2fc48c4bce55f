//! Laws for proofs over posts.
ghost use Rattle.std.specs.Prelude.{◌≡◌, ◌<◌, ℕ, List, All};
ghost use Rattle.edit_post.specs.declared.request.Request.{Request};
ghost use Rattle.edit_post.specs.declared.queue_view.QueueView.{QueueView};
ghost use Rattle.edit_post.specs.QueueRule.{KeepsOrder, TakesInOrder};
ghost use Rattle.edit_post.specs.Post.{Taker, ended_lists};
ghost use Rattle.edit_post.specs.Merge.{Merge};

/// A law for proofs: at each step of the queue, what was taken of a sender is a prefix of what it sent.
pub fn taken_is_a_prefix()
    ensures { (items : List Request) (views : List QueueView) → KeepsOrder items views → TakesInOrder items views }
{}

/// A law for proofs: what a taker took of senders of its post is a merge of what it took of each.
pub fn taken_is_a_merge()
    ensures { (t : Taker) → All (λ r. r.sender < t.senders) t.taken → Merge (ended_lists t) t.taken }
{}
