//! The seals of an actor's logs.

ghost use Rattle.std.specs.Prelude.{◌≡◌, IfOk, map, All, false};
ghost use Rattle.guild_actor.specs.Desks.{log_sealed};

use guild_hub::{HubWriter, SealedLog};
use snowflake_id::Snowflake;
use std::alloc::{AllocError, Global};
use std::sync::Wait;

/// Seals every log. After an `Err` the logs that are not sealed are ended without a seal.
pub fn seal_all<R: Wait + Drop>(
    alloc: Global,
    mut writers: Vec<(Snowflake, HubWriter<R>)>,
) -> Result<Vec<(Snowflake, SealedLog<R>)>, AllocError>
    requires { All (λ w. w.1.spent ≡ false) writers.items }
    ensures { IfOk result (λ logs. logs.items ≡ map log_sealed writers.items) }
{
    let mut logs = Vec::with_capacity(alloc, writers.len())?;
    while let Some((guild, writer)) = writers.pop() {
        match writer.seal() {
            Ok(log) => logs.push((guild, log))?,
            Err((_writer, error)) => return Err(error),
        }
    }
    logs.reverse();
    Ok(logs)
}
