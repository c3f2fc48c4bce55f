//! A look at a hub, and the input that it makes.

ghost use Rattle.std.specs.Prelude.{◌≡◌, [], ◌∷◌, IfOk, OnErr};
ghost use Rattle.worker_run.specs.Hubs.{IsReader, Reads};
ghost use Rattle.worker_run.specs.Looking.{Looks};

use collections::Seq;
use guild_hub::{HubReader, LookRefused, Looked, Rebased};
use snowflake_id::Snowflake;
use std::alloc::AllocError;
use worker_core::Input;

/// What was seen of a guild's log.
#[derive(Drop)]
pub struct Seen {
    pub input: Input,
    /// Whether there were entries.
    pub some: bool,
    /// Whether the log was seen to its seal.
    pub sealed: bool,
    /// Whether the log ended without a seal.
    pub quit: bool,
}

/// Looks once at the hub, and rebases where the look lags.
pub fn look_at(reader: &mut (Snowflake, HubReader)) -> Result<Seen, AllocError>
    requires { IsReader reader.old }
    ensures ok { IfOk result (λ seen. Looks seen reader.old reader.new) }
    ensures err { OnErr result (Reads [] reader.old reader.new) }
{
    match reader.1.look() {
        Ok(
            Looked {
                entries,
                sealed,
                quit,
            },
        ) => Ok(Seen {
            some: !entries.is_empty(),
            input: Input::Look(reader.0, Seq::from_vec(entries)),
            sealed,
            quit,
        }),
        Err(LookRefused::Lagged { .. }) => rebase(reader),
        Err(LookRefused::Memory) => Err(AllocError),
    }
}

// Begins anew from what is kept of the log.
fn rebase(reader: &mut (Snowflake, HubReader)) -> Result<Seen, AllocError>
    requires { IsReader reader.old }
    ensures ok { IfOk result (λ seen. Looks seen reader.old reader.new) }
    ensures err { OnErr result (Reads [] reader.old reader.new) }
{
    let Rebased {
        base,
        basis,
        entries,
        sealed,
    } = reader.1.rebase()?;
    Ok(Seen {
        input: Input::Rebase(reader.0, base, basis, Seq::from_vec(entries)),
        some: true,
        sealed,
        quit: false,
    })
}
