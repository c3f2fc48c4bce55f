//! What a client receives.

ghost use Rattle.std.specs.Prelude.{◌≡◌, ◌⊎◌, Ok, IfOk, IfErr};
ghost use Rattle.client_session.specs.declared.received.Received.{Received as AReceived};
ghost use Rattle.client_session.specs.declared.fault.ClientFault.TheVariants.{BadText, Memory};
ghost use Rattle.client_session.specs.Received.{IsTextOf, IsNoDispatchText, IsUnread, UnlessMemory};

use crate::ClientFault;
use dispatch_types::Dispatch;
use event_json::DispatchFault;
use gateway_frames::Out;
use std::alloc::Global;

/// What the gateway sends (Gateway, Payload Structure).
#[derive(Drop)]
pub enum Received {
    /// A dispatch, with its number.
    Dispatch(Dispatch, u64),
    /// Anything else.
    Other(Out),
}

impl Received {
    /// Reads a payload, whatever its spaces and the order of its keys. `BadText` exactly if the text is
    /// neither a dispatch nor another payload.
    pub fn read(alloc: Global, text: &str) -> Result<Received, ClientFault>
        ensures one { IfOk result (IsTextOf text.now) }
        ensures each { (payload : AReceived) → IsTextOf text.now payload → UnlessMemory result (Ok payload) }
        ensures fault { IfErr result (λ fault. (fault ≡ Memory) ⊎ ((fault ≡ BadText) × IsUnread text.now)) }
    {
        match event_json::read(alloc, text) {
            Ok((dispatch, number)) => Ok(Received::Dispatch(dispatch, number)),
            Err(DispatchFault::Memory) => Err(ClientFault::Memory),
            Err(_) => read_other(alloc, text),
        }
    }
}

// Reads a payload that is no dispatch.
fn read_other(alloc: Global, text: &str) -> Result<Received, ClientFault>
    requires { IsNoDispatchText text.now }
    ensures one { IfOk result (IsTextOf text.now) }
    ensures each { (payload : AReceived) → IsTextOf text.now payload → UnlessMemory result (Ok payload) }
    ensures fault { IfErr result (λ fault. (fault ≡ Memory) ⊎ ((fault ≡ BadText) × IsUnread text.now)) }
{
    match Out::read(alloc, text)? {
        Some(out) => Ok(Received::Other(out)),
        None => Err(ClientFault::BadText),
    }
}
