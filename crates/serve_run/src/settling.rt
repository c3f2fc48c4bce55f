//! What is settled when all parts of `serve` have ended without a fault, and the lines that it writes then.

ghost use Rattle.std.specs.Prelude.{◌≡◌, ◌++◌, ℕ, IfOk, string_bytes};
ghost use Rattle.serve_run.specs.Services.{Service};
ghost use Rattle.serve_run.specs.Ends.{Joined};
ghost use Rattle.serve_run.specs.Served.{IsSettled, IsServed};
ghost use Rattle.serve_run.specs.Lines.{guild_lines, strays_line};
ghost use Rattle.collections.specs.ById.{IsById};

use crate::lines::{add_guilds, add_strays};
use edit_post::Post;
use file_script::ScriptFault;
use gate_ends::{Left, Senders};
use run_ends::{Settled, settle};
use snowflake_id::Snowflake;
use std::alloc::{AllocError, Global};
use std::sync::Wait;

// Settles what the actors, the scripts and the workers have left.
fn settle_senders<R: Wait + Drop>(
    alloc: Global,
    posts: &[Post<R>],
    senders: Senders<R, ScriptFault>,
) -> Result<Settled<R>, AllocError>
    requires { (s : Service) × Joined s posts.now senders.actors.items senders.scripts.items senders.workers.items }
    ensures settled { IfOk result (λ settled. (s : Service) → Joined s posts.now senders.actors.items senders.scripts.items senders.workers.items → IsSettled s settled.logs.items settled.strays) }
    ensures ascending { IfOk result (λ settled. IsById (λ log. log.0) settled.logs.items) }
{
    let left = senders.gather(alloc)?;
    let Left {
        first,
        second,
        passes,
        readers,
    } = left;
    settle(alloc, posts, first, second, passes, readers)
}

// The lines of these guilds, and of the strays.
fn lines_of<R: Wait + Drop>(
    alloc: Global,
    guilds: &[Snowflake],
    settled: &Settled<R>,
) -> Result<String, AllocError>
    requires { IsById (λ log. log.0) settled.now.logs.items }
    ensures { IfOk result (λ text. string_bytes text ≡ guild_lines settled.now.logs.items guilds.now ++ strays_line settled.now.strays) }
{
    let mut text = String::new(alloc);
    add_guilds(&mut text, &settled.logs, guilds)?;
    add_strays(&mut text, settled.strays)?;
    Ok(text)
}

/// The lines of a run whose parts have left this: a line for each guild, in their order, and the strays. It
/// settles all that they have left.
///
/// # Errors
/// Out of memory.
pub fn sum_up<R: Wait + Drop>(
    alloc: Global,
    guilds: &[Snowflake],
    posts: &[Post<R>],
    senders: Senders<R, ScriptFault>,
) -> Result<String, AllocError>
    requires { (s : Service) × Joined s posts.now senders.actors.items senders.scripts.items senders.workers.items }
    ensures { IfOk result (λ text. (s : Service) → s.guilds ≡ guilds.now → Joined s posts.now senders.actors.items senders.scripts.items senders.workers.items → IsServed s (string_bytes text)) }
{
    let settled = settle_senders(alloc, posts, senders)?;
    let text = lines_of(alloc, guilds, &settled)?;
    Ok(text)
}
