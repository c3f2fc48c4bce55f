//! How many of its guilds each client holds as they are.

ghost use Rattle.std.specs.Prelude.{◌≡◌, ◌<◌, ◌≤◌, ◌+◌, length, map, IfOk};
ghost use Rattle.guild_hub.specs.Logs.{Published, whole_record};
ghost use Rattle.load_client.specs.Agreement.{AgreeSo};
ghost use Rattle.load_run.specs.Loads.{viewer_of};
ghost use Rattle.load_run.specs.Ends.{AllAgreeSo};

use dispatch_types::Viewer;
use guild_hub::SealedLog;
use guild_model::Guild;
use load_client::{EndedClient, agree, viewer};
use load_stage::intents_of;
use snowflake_id::Snowflake;
use std::alloc::{AllocError, Global};
use std::sync::Wait;

// For whom the dispatches of the client with this number are.
fn viewer_of(number: u8) -> Viewer
    ensures { result ≡ viewer_of number }
{
    let user = Snowflake(u64::from(1 + number / 3 % 3));
    viewer(user, intents_of(number))
}

// The records of the sealed logs.
fn records_of<R: Wait + Drop>(
    alloc: Global,
    logs: &[(Snowflake, SealedLog<R>)],
) -> Result<Vec<&Guild>, AllocError>
    ensures { IfOk result (λ records. map (λ guild. guild.now) records.items ≡ map (λ log. whole_record log.1) logs.now) }
{
    let mut records = Vec::with_capacity(alloc, logs.len())?;
    for log in logs {
        records.push(log.1.record())?;
    }
    Ok(records)
}

/// With how many of the sealed logs' records each client agrees, in the order of the clients.
pub fn agrees_of<R: Wait + Drop>(
    alloc: Global,
    clients: &[EndedClient],
    logs: &[(Snowflake, SealedLog<R>)],
) -> Result<Vec<usize>, AllocError>
    requires { length clients.now ≤ 255 }
    ensures { IfOk result (λ agrees. AllAgreeSo (map (λ log. whole_record log.1) logs.now) 0 clients.now agrees.items) }
{
    let records = records_of(alloc, logs)?;
    let mut agrees = Vec::with_capacity(alloc, clients.len())?;
    for (number, client) in clients.iter().enumerate() {
        let viewer = viewer_of(number as u8);
        agrees.push(agree(alloc, client.client.cache(), &viewer, &records)?)?;
    }
    Ok(agrees)
}
