//! What is between the two ends.

use crate::draws::Draws;
use crate::pair::Pair;
use crate::rest::Rest;
use gate_outside::incoming::Incoming;
use gate_outside::sending::Sending;
use std::alloc::{AllocError, Global};
use std::mem::replace;
use std::sync::Wait;

/// The client's latest connection: two links in memory, in which lies what is on its way. Once it is cut
/// there are no links, but what still arrives.
#[derive(Drop)]
pub struct Connection<R: Wait + Copy + Drop> {
    alloc: Global,
    pair: Option<Pair<R>>,
    to_client: Rest,
    to_worker: Rest,
    /// How many texts were lost on it and on those before.
    lost: u64,
}

impl<R: Wait + Copy + Drop> Connection<R> {
    /// None yet.
    pub fn none(alloc: Global) -> Connection<R> {
        Connection {
            alloc,
            pair: None,
            to_client: Rest::none(alloc),
            to_worker: Rest::none(alloc),
            lost: 0,
        }
    }

    /// Whether it is there and was not cut.
    pub fn is_whole(&self) -> bool {
        self.pair.is_some()
    }

    /// How many texts were lost.
    pub fn lost(&self) -> u64 {
        self.lost
    }

    /// What the worker has sent on it.
    pub fn sent_to_client(&self) -> &[Sending] {
        match &self.pair {
            Some(pair) => pair.sent_to_client(),
            None => &[],
        }
    }

    /// Counts texts that were lost.
    pub fn count_lost(&mut self, texts: u64) {
        self.lost = self.lost.saturating_add(texts);
    }

    /// A new connection, on which nothing is on its way. What was on its way on the one before is lost.
    pub fn open(&mut self, rt: R) -> Result<(), AllocError> {
        let texts = self.to_worker.lose_all();
        self.count_lost(texts);
        self.pair = Some(Pair::new(rt, self.alloc)?);
        Ok(())
    }

    // Takes what is on its way out of the links, which go.
    fn unlink(&mut self, pair: &mut Pair<R>) -> anyhow::Result<()> {
        drop(replace(&mut self.to_client, pair.rest_to_client(self.alloc)?));
        drop(replace(&mut self.to_worker, pair.rest_to_worker(self.alloc)?));
        Ok(())
    }

    // Cuts the links. All that is on its way still arrives.
    fn cut_links(&mut self) -> anyhow::Result<()> {
        match self.pair.take() {
            Some(mut pair) => {
                let unlinked = self.unlink(&mut pair);
                drop(pair);
                unlinked
            }
            None => Ok(()),
        }
    }

    /// It is cut. Of what is on its way to each end a front that is drawn still arrives.
    pub fn cut(&mut self, draws: &mut Draws) -> anyhow::Result<()> {
        self.cut_links()?;
        let texts = self.to_client.lose_some(draws);
        self.count_lost(texts);
        let texts = self.to_worker.lose_some(draws);
        self.count_lost(texts);
        Ok(())
    }

    /// The client leaves it. What is on its way to the client is lost.
    pub fn leave(&mut self) -> anyhow::Result<()> {
        self.cut_links()?;
        let texts = self.to_client.lose_all();
        self.count_lost(texts);
        Ok(())
    }

    /// The client sends a text. It is lost if the connection was cut.
    pub fn send_to_worker(&mut self, text: &str) -> anyhow::Result<()> {
        if let Some(pair) = &mut self.pair {
            return pair.send_to_worker(text);
        }
        self.count_lost(1);
        Ok(())
    }

    /// The worker sends a text. It is lost if the connection was cut.
    pub fn send_to_client(&mut self, text: &str) -> anyhow::Result<()> {
        if let Some(pair) = &mut self.pair {
            return pair.send_to_client(text);
        }
        self.count_lost(1);
        Ok(())
    }

    /// The worker closes it.
    pub fn close_to_client(&mut self, code: u16) -> anyhow::Result<()> {
        match &mut self.pair {
            Some(pair) => pair.close_to_client(code),
            None => Ok(()),
        }
    }

    /// What comes to the client next.
    pub fn next_to_client(&mut self) -> anyhow::Result<Incoming> {
        match &mut self.pair {
            Some(pair) => pair.next_to_client(),
            None => Ok(self.to_client.next()),
        }
    }

    /// What comes to the worker next.
    pub fn next_to_worker(&mut self) -> anyhow::Result<Incoming> {
        match &mut self.pair {
            Some(pair) => pair.next_to_worker(),
            None => Ok(self.to_worker.next()),
        }
    }
}
