//! One request's way into the log of its guild.

ghost use Rattle.std.specs.Prelude.{◌≡◌, ◌<◌, ℕ, true, false, length, slice_index_or, Ok, IfOk, IfErr, OnErr};
ghost use Rattle.guild_hub.specs.Writes.{Publishing};
ghost use Rattle.guild_places.specs.Places.{guilds_of};
ghost use Rattle.guild_actor.specs.Desks.{Publishes, Tells, logs_of};

use edit_apply::Edit;
use guild_hub::{HubRefused, HubWriter};
use snowflake_id::Snowflake;
use std::alloc::AllocError;
use std::sync::Wait;

// Whether the log took the edit, where memory was not out.
fn outcome(published: Result<(), (Edit, HubRefused)>) -> Result<bool, AllocError>
    ensures added { IfOk published (λ _. result ≡ Ok true) }
    ensures refused { IfErr published (λ e. Tells e.1 result) }
{
    match published {
        Ok(()) => Ok(true),
        Err((edit, refused)) => {
            drop(edit);
            match refused {
                HubRefused::Full => Ok(false),
                HubRefused::Memory => Err(AllocError),
            }
        }
    }
}

/// Publishes an edit in the log at a place. It answers false, and changes nothing, exactly if the log
/// is full.
pub fn publish_at<R: Wait + Drop>(
    writers: &mut Vec<(Snowflake, HubWriter<R>)>,
    place: usize,
    edit: Edit,
) -> Result<bool, AllocError>
    requires place { place < length writers.old.items }
    requires unspent { (d : ℕ × Publishing) → (slice_index_or writers.old.items place d).1.spent ≡ false }
    ensures ok { IfOk result (λ added. Publishes writers.old.items place edit added writers.new.items) }
    ensures err { OnErr result (logs_of writers.new.items ≡ logs_of writers.old.items) }
    ensures guilds { guilds_of writers.new.items ≡ guilds_of writers.old.items }
{
    let published = writers[place].1.publish(edit);
    outcome(published)
}
