//! The summary of a load whose parts have ended without a fault.

ghost use Rattle.std.specs.Prelude.{ℕ, IfOk, string_bytes};
ghost use Rattle.load_run.specs.Joined.{Joined, ClientsJoined};
ghost use Rattle.load_run.specs.Loads.{AreLogs, IsLoad};

use crate::agreeing::agrees_of;
use crate::ends::have_finished;
use edit_post::{Post, SendRefused};
use gate_ends::{Left, Senders};
use load_client::EndedClient;
use log_summary::summary;
use run_ends::{Settled, settle};
use std::alloc::{AllocError, Global};
use std::mem::ManuallyDrop;
use std::sync::Wait;

// Settles what the actors, the scripts and the workers have left.
fn settle_senders<R: Wait + Copy + Drop>(
    alloc: Global,
    posts: &[Post<R>],
    senders: Senders<R, SendRefused>,
) -> Result<Settled<R>, AllocError>
    requires { (seed : ℕ) × Joined seed posts.now senders.actors.items senders.scripts.items senders.workers.items }
    ensures { IfOk result (λ settled. (seed : ℕ) → Joined seed posts.now senders.actors.items senders.scripts.items senders.workers.items → AreLogs seed settled.logs.items) }
{
    let left = senders.gather(alloc)?;
    let Left {
        first,
        second,
        passes,
        readers,
    } = left;
    settle(alloc, posts, first, second, passes, readers)
}

/// The summary of a load whose parts have left this. It settles all that they have left, and counts with how
/// many of the sealed logs each client agrees.
///
/// # Errors
/// Out of memory.
pub fn sum_up<R: Wait + Copy + Drop>(
    alloc: Global,
    seed: u64,
    posts: &[Post<R>],
    senders: Senders<R, SendRefused>,
    clients: Vec<EndedClient>,
) -> Result<String, AllocError>
    requires senders { Joined seed posts.now senders.actors.items senders.scripts.items senders.workers.items }
    requires clients { ClientsJoined clients.items }
    ensures { IfOk result (λ text. IsLoad seed (string_bytes text)) }
{
    let settled = settle_senders(alloc, posts, senders)?;
    // No client is stopped if no part has ended by a fault.
    if !have_finished(&clients) {
        return Err(AllocError);
    }
    let agrees = agrees_of(alloc, &clients, &settled.logs)?;
    let text = summary(alloc, seed, &settled.logs, &agrees)?;
    // As with the notes of the workers.
    let _left = ManuallyDrop::new((settled, clients));
    Ok(text)
}
