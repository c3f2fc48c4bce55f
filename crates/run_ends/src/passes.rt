//! The ended passes of all senders, each beside the place of its post.

ghost use Rattle.std.specs.Prelude.{◌≤◌, length, map, List, All, OnOk, IfOk};
ghost use Rattle.edit_post.specs.Post.{PostId, Taker};
ghost use Rattle.load_settle.specs.Passes.{HasEndedAt, IsTakenWhole};
ghost use Rattle.run_ends.specs.Senders.{HaveEnded, AreTakenWhole};

use edit_post::SendPass;
use std::alloc::{AllocError, Global};

// Adds the passes of a sender, which stand in the order of the posts.
fn add_passes(sent: &mut Vec<(u8, SendPass)>, mut passes: Vec<SendPass>) -> Result<(), AllocError>
    requires { length passes.items ≤ 256 }
    ensures ended { (posts : List PostId) → HaveEnded posts passes.items → All (HasEndedAt posts) sent.old.items → OnOk result (All (HasEndedAt posts) sent.new.items) }
    ensures whole { (taken : List Taker) → OnOk result (All (IsTakenWhole taken) sent.new.items → All (IsTakenWhole taken) sent.old.items × AreTakenWhole taken passes.items) }
{
    while let Some(pass) = passes.pop() {
        let place = passes.len() as u8;
        sent.push((place, pass))?;
    }
    Ok(())
}

/// The passes of all senders. What is taken whole of each of them is so of each sender.
pub fn sent_of(
    alloc: Global,
    mut senders: Vec<Vec<SendPass>>,
) -> Result<Vec<(u8, SendPass)>, AllocError>
    requires { All (λ passes. length passes.items ≤ 256) senders.items }
    ensures ended { (posts : List PostId) → All (HaveEnded posts) (map (λ passes. passes.items) senders.items) → IfOk result (λ sent. All (HasEndedAt posts) sent.items) }
    ensures whole { (taken : List Taker) → IfOk result (λ sent. All (IsTakenWhole taken) sent.items → All (AreTakenWhole taken) (map (λ passes. passes.items) senders.items)) }
{
    let mut sent = Vec::new(alloc);
    while let Some(passes) = senders.pop() {
        add_passes(&mut sent, passes)?;
    }
    Ok(sent)
}
