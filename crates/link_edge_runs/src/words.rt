//! What is answered, in words.

use gate_outside::faults::Fault;
use gate_outside::incoming::Incoming;
use std::alloc::{AllocError, Global};

/// What a link gives.
pub fn heard(alloc: Global, answer: Result<Incoming, Fault>) -> Result<String, AllocError> {
    match answer {
        Ok(Incoming::Text(text)) => format!(in alloc; "text {:?}", text.as_str()),
        Ok(Incoming::Closed(code)) => format!(in alloc; "closed {code}"),
        Ok(Incoming::NotYet) => String::from_str(alloc, "not yet"),
        Err(fault) => format!(in alloc; "{fault:?}"),
    }
}

/// What a call answers that gives nothing.
pub fn done(answer: Result<(), Fault>) -> &'static str {
    match answer {
        Ok(()) => "ok",
        Err(Fault::Failed) => "Failed",
        Err(Fault::Memory) => "Memory",
    }
}
