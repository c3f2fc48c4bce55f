//! What links are given and answer, in words.

use collections::text::Text;
use gate_outside::faults::Fault;
use gate_outside::incoming::Incoming;
use gate_outside::sending::Sending;
use std::alloc::{AllocError, Global};
use std::collections::VecDeque;
use thread_outside::link_content::LinkContent;
use thread_outside::script::Script;
use thread_outside::unused::Unused;

/// What a link answers.
pub fn heard(alloc: Global, answer: Result<Incoming, Fault>) -> Result<String, AllocError> {
    match answer {
        Ok(Incoming::Text(text)) => format!(in alloc; "text {}", text.as_str()),
        Ok(Incoming::Closed(code)) => format!(in alloc; "closed {code}"),
        Ok(Incoming::NotYet) => String::from_str(alloc, "not yet"),
        Err(fault) => format!(in alloc; "{fault:?}"),
    }
}

/// A script that gives this text, then nothing once, and then a close.
pub fn script(alloc: Global, text: &str) -> Result<Unused<Script>, AllocError> {
    let mut turns = VecDeque::new(alloc);
    turns.push_back(Some(Sending::Text(Text::new(alloc, text)?)))?;
    turns.push_back(None)?;
    turns.push_back(Some(Sending::Close(1001)))?;
    Ok(Script::new(alloc, turns))
}

/// What a link to such a script is made from. `failing` has the numbers of its calls that fail.
pub fn content(
    alloc: Global,
    text: &str,
    failing: &[u64],
) -> Result<LinkContent<Script>, AllocError> {
    let script = script(alloc, text)?;
    Ok(LinkContent::new(script, failing.to_vec(alloc)?))
}
