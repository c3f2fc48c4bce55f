//! The actor: it publishes what it takes, and then seals every log.

ghost use Rattle.std.specs.Prelude.{◌≡◌, ◌++◌, ◌∷◌, [], List, ℕ, map, OnOk, OnErr, IfOk};
ghost use Rattle.edit_post.specs.declared.request.Request.{Request};
ghost use Rattle.edit_post.specs.Merge.{Merge};
ghost use Rattle.edit_post.specs.Post.{HasEnded, ended_lists};
ghost use Rattle.guild_actor.specs.Acts.{AreNew, edits_of, sealed_log, strays_of, full_of, counted};
ghost use Rattle.guild_places.specs.Places.{AreDistinct, guilds_of};
ghost use Rattle.guild_actor.specs.Desks.{held_after, logs_of};

use crate::desk::Desk;
use crate::report::ActReport;
use crate::seals;
use edit_post::{Post, TakePass};
use guild_hub::HubWriter;
use snowflake_id::Snowflake;
use std::alloc::{AllocError, Global};
use std::sync::Wait;
use std::time::Duration;
use wake_bell::Bell;

// For so many milliseconds at most an actor rests that finds nothing to take.
const REST_MS: u64 = 1;

// Publishes what it takes, in order, until every sender has ended. It rings each time that it has taken all
// that waited. After an `Err` all requests that were taken are published but for the last.
fn deliver_all<R: Wait + Drop>(
    rt: &R,
    post: &Post<R>,
    shown: &Bell,
    pass: &mut TakePass,
    desk: &mut Desk<R>,
) -> Result<(), AllocError>
    requires post { (pass.old.post ≡ post.now) × (pass.old.taken ≡ []) }
    requires start { desk.old ≡ held_after desk.old.writers [] }
    ensures post { (pass.new.post ≡ pass.old.post) × (pass.new.senders ≡ pass.old.senders) }
    ensures ended { OnOk result (HasEnded pass.new × Merge (ended_lists pass.new) pass.new.taken) }
    ensures ok { OnOk result (desk.new ≡ held_after desk.old.writers pass.new.taken) }
    ensures err { OnErr result ((requests : List Request) × (last : Request) × (pass.new.taken ≡ requests ++ last ∷ []) × (logs_of desk.new.writers ≡ logs_of (held_after desk.old.writers requests).writers)) }
{
    let mut rung = true;
    for _ in rt.forever() {
        let heard = post.bell().heard();
        match post.take(pass) {
            Some(request) => {
                desk.deliver(request)?;
                rung = false;
            }
            None => {
                if !rung {
                    shown.ring();
                    rung = true;
                }
                if post.ended(pass) {
                    return Ok(());
                }
                post.bell().rest(rt, heard, Duration::from_millis(REST_MS));
            }
        }
    }
    unreachable!()
}

/// Publishes what it takes from a post, in order, each request in the log of its guild, until every
/// sender has ended; then it seals every log. It rings `shown` each time that it has published all that
/// waited, and after the seals. While nothing comes it rests until a sender has sent, and looks again at
/// the latest after a millisecond. It waits for the senders.
///
/// # Errors
/// Out of memory. All requests that were taken are then published but for the last, and every log that
/// is not sealed has ended without a seal.
pub fn act<R: Wait + Drop>(
    rt: &R,
    alloc: Global,
    post: &Post<R>,
    shown: &Bell,
    mut pass: TakePass,
    writers: Vec<(Snowflake, HubWriter<R>)>,
) -> Result<ActReport<R>, AllocError>
    requires post { (pass.post ≡ post.now) × (pass.taken ≡ []) }
    requires writers { AreDistinct (guilds_of writers.items) × AreNew writers.items }
    ensures post { IfOk result (λ r. (r.pass.post ≡ pass.post) × (r.pass.senders ≡ pass.senders)) }
    ensures ended { IfOk result (λ r. HasEnded r.pass) }
    ensures logs { IfOk result (λ r. r.logs.items ≡ map (sealed_log r.pass.taken) writers.items) }
    ensures merged { IfOk result (λ r. (guild : ℕ) → Merge (map (edits_of guild) (ended_lists r.pass)) (edits_of guild r.pass.taken)) }
    ensures strays { IfOk result (λ r. r.strays ≡ counted (strays_of (guilds_of writers.items) r.pass.taken)) }
    ensures full { IfOk result (λ r. r.full ≡ counted (full_of (guilds_of writers.items) r.pass.taken)) }
{
    let mut desk = Desk::of(alloc, writers)?;
    deliver_all(rt, post, shown, &mut pass, &mut desk)?;
    let Desk {
        writers,
        index: _index,
        strays,
        full,
    } = desk;
    let logs = seals::seal_all(alloc, writers)?;
    shown.ring();
    Ok(ActReport {
        logs,
        strays,
        full,
        pass,
    })
}
