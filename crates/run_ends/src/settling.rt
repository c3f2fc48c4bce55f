//! What two actors, their senders and the readers of their logs have left is settled.

ghost use Rattle.std.specs.Prelude.{◌≡◌, ◌+◌, ◌-◌, ◌^◌, ◌≤◌, ◌∷◌, [], min, length, map, All, IfOk, OnOk};
ghost use Rattle.collections.specs.ById.{IsById};
ghost use Rattle.load_settle.specs.Passes.{AreTakers, HasEndedAt, IsTakenWhole};
ghost use Rattle.load_settle.specs.Readers.{HasLog};
ghost use Rattle.run_ends.specs.Lists.{woven};
ghost use Rattle.run_ends.specs.Senders.{HaveEnded, AreTakenWhole};
ghost use Rattle.run_ends.specs.Logs.{HasPart};

use crate::passes::sent_of;
use crate::settled::Settled;
use crate::weaving::weave;
use edit_post::{Post, SendPass, TakePass};
use guild_actor::ActReport;
use guild_hub::{HubReader, SealedLog};
use load_settle::settle_all;
use snowflake_id::Snowflake;
use std::alloc::{AllocError, Global};
use std::sync::Wait;

// Settles the passes and the readers.
fn settle_ends<R: Wait + Drop>(
    posts: &[Post<R>],
    mut taken: Vec<TakePass>,
    sent: Vec<(u8, SendPass)>,
    logs: &[(Snowflake, SealedLog<R>)],
    mut readers: Vec<(Snowflake, HubReader)>,
) -> Result<(), AllocError>
    requires taken { AreTakers posts.now taken.items }
    requires sent { All (HasEndedAt posts.now) sent.items }
    requires ascending { IsById (λ log. log.0) logs.now }
    requires logs { All (HasLog logs.now) readers.items }
    ensures whole { OnOk result (All (IsTakenWhole taken.items) sent.items) }
    ensures readers { OnOk result (All (HasPart logs.now) readers.items) }
{
    settle_all(posts, &mut taken, sent, logs, &mut readers)
}

/// Settles what is left when all threads of a run with two actors have ended: each sender's passes with its
/// posts' take passes, and each reader with the sealed log of its guild. The guilds stand at the first and the
/// second actor in turn.
///
/// # Errors
/// Out of memory.
pub fn settle<R: Wait + Drop>(
    alloc: Global,
    posts: &[Post<R>],
    first: ActReport<R>,
    second: ActReport<R>,
    senders: Vec<Vec<SendPass>>,
    readers: Vec<(Snowflake, HubReader)>,
) -> Result<Settled<R>, AllocError>
    requires takers { AreTakers posts.now (first.pass ∷ second.pass ∷ []) }
    requires ended { All (HaveEnded posts.now) (map (λ passes. passes.items) senders.items) }
    requires ascending { IsById (λ log. log.0) (woven first.logs.items second.logs.items) }
    requires logs { All (HasLog (woven first.logs.items second.logs.items)) readers.items }
    ensures logs { IfOk result (λ s. s.logs.items ≡ woven first.logs.items second.logs.items) }
    ensures strays { IfOk result (λ s. s.strays ≡ min (first.strays + second.strays) (2 ^ 64 - 1)) }
    ensures whole { OnOk result (All (AreTakenWhole (first.pass ∷ second.pass ∷ [])) (map (λ passes. passes.items) senders.items)) }
    ensures readers { OnOk result (All (HasPart (woven first.logs.items second.logs.items)) readers.items) }
{
    let ActReport {
        logs: of_first,
        strays: here,
        full: _,
        pass: taker,
    } = first;
    let ActReport {
        logs: of_second,
        strays: there,
        full: _,
        pass: other,
    } = second;
    let logs = weave(alloc, of_first, of_second)?;
    let sent = sent_of(alloc, senders)?;
    let taken = vec![in alloc; taker, other]?;
    settle_ends(posts, taken, sent, &logs, readers)?;
    Ok(Settled {
        logs,
        strays: here.saturating_add(there),
    })
}
