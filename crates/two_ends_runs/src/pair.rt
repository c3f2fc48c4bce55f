//! The two links of a connection.

use crate::rest::Rest;
use anyhow::bail;
use collections::Text;
use gate_outside::faults::Fault;
use gate_outside::incoming::Incoming;
use gate_outside::links::Link;
use gate_outside::sending::Sending;
use std::alloc::{AllocError, Global};
use std::sync::Wait;
use thread_outside::lane_end::LaneEnd;
use thread_outside::mem_link::MemLink;

/// A link in memory to another.
type End<R> = MemLink<LaneEnd<R>>;

/// Two links in memory to one another. What one was sent and the other has not given is on its way.
#[derive(Drop)]
pub struct Pair<R: Wait + Copy + Drop> {
    alloc: Global,
    client: End<R>,
    worker: End<R>,
    sent_to_client: Vec<Sending>,
}

fn received(answer: Result<Incoming, Fault>) -> anyhow::Result<Incoming> {
    match answer {
        Ok(incoming) => Ok(incoming),
        Err(fault) => bail!("a link: {fault:?}"),
    }
}

fn sent(answer: Result<(), Fault>) -> anyhow::Result<()> {
    match answer {
        Ok(()) => Ok(()),
        Err(fault) => bail!("a link: {fault:?}"),
    }
}

// All that waits at a link, of which a close is the last.
fn rest_of<R: Wait + Copy + Drop>(alloc: Global, end: &mut End<R>) -> anyhow::Result<Rest> {
    let mut rest = Rest::none(alloc);
    for _ in 0..u64::MAX {
        match received(end.recv())? {
            Incoming::Text(text) => rest.push(Incoming::Text(text))?,
            Incoming::Closed(code) => {
                rest.push(Incoming::Closed(code))?;
                break;
            }
            Incoming::NotYet => break,
        }
    }
    Ok(rest)
}

impl<R: Wait + Copy + Drop> Pair<R> {
    /// Two links on which nothing is on its way.
    pub fn new(rt: R, alloc: Global) -> Result<Pair<R>, AllocError> {
        let (client, worker) = MemLink::pair(rt, alloc)?;
        Ok(Pair {
            alloc,
            client,
            worker,
            sent_to_client: Vec::new(alloc),
        })
    }

    /// The client sends a text.
    pub fn send_to_worker(&mut self, text: &str) -> anyhow::Result<()> {
        sent(self.client.send(text))
    }

    /// The worker sends a text.
    pub fn send_to_client(&mut self, text: &str) -> anyhow::Result<()> {
        sent(self.worker.send(text))?;
        let kept = Text::new(self.alloc, text)?;
        self.sent_to_client.push(Sending::Text(kept))?;
        Ok(())
    }

    /// The worker closes its link.
    pub fn close_to_client(&mut self, code: u16) -> anyhow::Result<()> {
        sent(self.worker.close(code))?;
        self.sent_to_client.push(Sending::Close(code))?;
        Ok(())
    }

    /// What comes to the client next.
    pub fn next_to_client(&mut self) -> anyhow::Result<Incoming> {
        received(self.client.recv())
    }

    /// What comes to the worker next.
    pub fn next_to_worker(&mut self) -> anyhow::Result<Incoming> {
        received(self.worker.recv())
    }

    /// All that is on its way to the client.
    pub fn rest_to_client(&mut self, alloc: Global) -> anyhow::Result<Rest> {
        rest_of(alloc, &mut self.client)
    }

    /// All that is on its way to the worker.
    pub fn rest_to_worker(&mut self, alloc: Global) -> anyhow::Result<Rest> {
        rest_of(alloc, &mut self.worker)
    }

    /// What the worker has sent, in order.
    pub fn sent_to_client(&self) -> &[Sending] {
        self.sent_to_client.as_slice()
    }
}
