//! What happens at the client.

use crate::draws::Draws;
use crate::texts::{Said, said_in};
use crate::two_ends::TwoEnds;
use client_session::Act;
use gate_outside::incoming::Incoming;
use std::sync::Wait;
use worker_core::Input;

impl<R: Wait + Copy + Drop> TwoEnds<R> {
    /// The client is given what comes to it next. Whether there was something.
    pub fn give_client(&mut self) -> anyhow::Result<bool> {
        match self.connection.next_to_client()? {
            Incoming::Text(text) => {
                let acts = self.client.on_text(text.as_str(), self.now)?;
                self.act_on_all(acts)?;
                Ok(true)
            }
            Incoming::Closed(code) => {
                self.end(Some(code))?;
                Ok(true)
            }
            Incoming::NotYet => Ok(false),
        }
    }

    /// The client sends the heartbeat that is due, if one is.
    pub fn beat(&mut self) -> anyhow::Result<()> {
        match self.client.next(self.now)? {
            Some(act) => self.act_on(&act),
            None => Ok(()),
        }
    }

    fn act_on_all(&mut self, acts: Vec<Act>) -> anyhow::Result<()> {
        for act in acts {
            self.act_on(&act)?;
        }
        Ok(())
    }

    // This worker never asks its client to leave, so a client that was given a text only sends.
    fn act_on(&mut self, act: &Act) -> anyhow::Result<()> {
        match act {
            Act::Send(text) => self.say(text.as_str()),
            _ => Ok(()),
        }
    }

    fn say(&mut self, text: &str) -> anyhow::Result<()> {
        if said_in(self.alloc, text)? == Said::Identify {
            self.counts.identifies = self.counts.identifies.saturating_add(1);
        }
        self.connection.send_to_worker(text)
    }

    /// The client's connection is cut, if it has one that was not.
    pub fn cut(&mut self, draws: &mut Draws) -> anyhow::Result<()> {
        if !self.is_connected || !self.connection.is_whole() {
            return Ok(());
        }
        self.counts.cuts = self.counts.cuts.saturating_add(1);
        self.untold.push(self.number)?;
        self.connection.cut(draws)
    }

    /// The client learns that its connection was cut, if it was. Whether it has.
    pub fn learn(&mut self) -> anyhow::Result<bool> {
        if !self.is_connected || self.connection.is_whole() {
            return Ok(false);
        }
        self.end(None)?;
        Ok(true)
    }

    // The client learns of the end of its connection. There is one worker, so it dials that, whatever the URL.
    fn end(&mut self, code: Option<u16>) -> anyhow::Result<()> {
        drop(self.client.on_lost(code)?);
        self.is_connected = false;
        self.connection.leave()
    }

    /// The client dials.
    pub fn dial(&mut self, rt: R) -> anyhow::Result<()> {
        self.number = self.number.saturating_add(1);
        self.connection.open(rt)?;
        self.is_connected = true;
        self.step(Input::Open(self.number))
    }
}
