//! What a worker is given, what it sends, and why it stops.

ghost use Rattle.std.specs.Prelude.{◌≡◌, [], ◌∷◌, ◌++◌, OnOk};
ghost use Rattle.worker_core.specs.Represents.{may_end_by};

use crate::wished_edit::WishedEdit;
use collections::{Duplicate, Seq, Text};
use guild_model::Guild;
use log_entry::{Entry, shared};
use payload_text::Payload;
use session_core::{SessionFault, Spent};
use snowflake_id::Snowflake;
use std::alloc::{AllocError, Global};

/// What comes to a worker.
#[derive(Drop)]
pub enum Input {
    /// The entries of a guild's log that follow those that the worker has looked at, in order.
    Look(Snowflake, Seq<Entry>),
    /// A log of which the worker has missed too much: how many entries its base has, the record after
    /// these, and the entries that follow them.
    Rebase(Snowflake, u64, Guild, Seq<Entry>),
    /// A client has connected; its connection has this number.
    Open(u32),
    /// A text has come on a connection.
    Frame(u32, Text),
    /// The link of a connection is lost.
    Lost(u32),
    /// A client has closed its connection with a code (Gateway, Disconnecting).
    Closed(u32, u16),
    /// The time, in milliseconds. A time before the worker's own counts as the worker's.
    Tick(u64),
}

impl Input {
    /// Whether sessions may end by this.
    pub(crate) fn may_end_sessions(&self) -> bool
        ensures { result ≡ may_end_by self.now }
    {
        match self {
            Input::Rebase(_, _, _, _) | Input::Closed(_, _) | Input::Tick(_) => true,
            Input::Look(_, _) | Input::Open(_) | Input::Frame(_, _) | Input::Lost(_) => false,
        }
    }
}

impl Duplicate for Input {
    fn duplicate(&self, alloc: Global) -> Result<Input, AllocError> {
        Ok(match self {
            Input::Look(guild, entries) => {
                let entries = shared(alloc, entries.as_slice())?;
                Input::Look(*guild, Seq::from_vec(entries))
            }
            Input::Rebase(guild, base, basis, entries) => {
                let entries = shared(alloc, entries.as_slice())?;
                let entries = Seq::from_vec(entries);
                Input::Rebase(*guild, *base, basis.copy(alloc)?, entries)
            }
            Input::Open(conn) => Input::Open(*conn),
            Input::Frame(conn, text) => Input::Frame(*conn, text.copy(alloc)?),
            Input::Lost(conn) => Input::Lost(*conn),
            Input::Closed(conn, code) => Input::Closed(*conn, *code),
            Input::Tick(now) => Input::Tick(*now),
        })
    }
}

/// What a worker sends.
#[derive(Drop)]
pub enum Output {
    /// Send a text to a connection.
    Send(u32, Payload),
    /// Close a connection with a code (Gateway, Close Event Codes).
    Close(u32, u16),
    /// The edit that a client asks for when it updates its presence or voice state (Gateway Events,
    /// Update Presence and Update Voice State). The caller may add it to the guild's log.
    Wish(Snowflake, WishedEdit),
}

/// Why a worker is finished.
#[derive(Clone, Copy, PartialEq, Eq, Debug)]
pub enum StepFault {
    /// A count of sessions, of chunks or of a session's dispatches is at its type's last value.
    Spent,
    /// Memory ran out.
    Memory,
}

/// Adds one output.
pub(crate) fn put(out: &mut Vec<Output>, output: Output) -> Result<(), AllocError>
    ensures { OnOk result (out.new.items ≡ out.old.items ++ output ∷ []) }
{
    out.push(output)?;
    Ok(())
}

impl From<AllocError> for StepFault {
    ghost use Rattle.worker_core.specs.declared.io.StepFault.TheVariants.{Memory};

    ghost from_gives = { λ _ fault. fault ≡ Memory };

    fn from(_: AllocError) -> Self {
        StepFault::Memory
    }
}

impl From<Spent> for StepFault {
    ghost use Rattle.worker_core.specs.declared.io.StepFault.TheVariants as fault;

    ghost from_gives = { λ _ e. e ≡ fault.Spent };

    fn from(_: Spent) -> Self {
        StepFault::Spent
    }
}

impl From<SessionFault> for StepFault {
    ghost use Rattle.worker_core.specs.Faults.{step_fault};

    ghost from_gives = { λ f e. e ≡ step_fault f };

    fn from(fault: SessionFault) -> Self {
        match fault {
            SessionFault::Spent => StepFault::Spent,
            SessionFault::Memory => StepFault::Memory,
        }
    }
}
