//! What is settled when all threads have ended.

ghost use Rattle.std.specs.Prelude.{◌≡◌, All, OnOk, OnErr};
ghost use Rattle.std.specs.List.{AllZip};
ghost use Rattle.collections.specs.ById.{IsById};
ghost use Rattle.load_settle.specs.Passes.{AreTakers, HasEndedAt, IsTakenWhole};
ghost use Rattle.load_settle.specs.Readers.{HasLog, ReachesEnd, ReachesEndOrStays};

use crate::{passes, reading};
use edit_post::{Post, SendPass, TakePass};
use guild_hub::{HubReader, SealedLog};
use snowflake_id::Snowflake;
use std::alloc::AllocError;
use std::sync::Wait;

/// Settles each send pass with the take pass of its post. Then each reader learns the note of the sealed
/// log of its guild and looks once, and rebases where the look lags. The take passes are those of the
/// posts, in order; a send pass stands beside the place of its post; the logs ascend by guild. It may wait
/// for other threads.
///
/// # Errors
/// Out of memory. All passes are settled then, and each reader has seen what it had seen before, or its log
/// to the end.
pub fn settle_all<R: Wait + Drop>(
    posts: &[Post<R>],
    taken: &mut Vec<TakePass>,
    sent: Vec<(u8, SendPass)>,
    logs: &[(Snowflake, SealedLog<R>)],
    readers: &mut Vec<(Snowflake, HubReader)>,
) -> Result<(), AllocError>
    requires taken { AreTakers posts.now taken.old.items }
    requires sent { All (HasEndedAt posts.now) sent.items }
    requires ascending { IsById (λ log. log.0) logs.now }
    requires logs { All (HasLog logs.now) readers.old.items }
    ensures same { taken.new.items ≡ taken.old.items }
    ensures whole { All (IsTakenWhole taken.new.items) sent.items }
    ensures ok { OnOk result (AllZip (ReachesEnd logs.now) readers.old.items readers.new.items) }
    ensures err { OnErr result (AllZip (ReachesEndOrStays logs.now) readers.old.items readers.new.items) }
{
    passes::settle_each(posts, taken, sent);
    reading::read_to_the_ends(logs, readers)
}
