//! The two ends and what is between them, with what happens at the worker.

use crate::connection::Connection;
use crate::counts::Counts;
use crate::script::BOT_NAME;
use crate::texts::{Said, answer_of, said_in};
use crate::worker_end::WorkerEnd;
use client_session::Client;
use collections::Text;
use edit_apply::Edit;
use gate_outside::incoming::Incoming;
use intent_set::Intents;
use payload_text::Payload;
use snowflake_id::Snowflake;
use std::alloc::{AllocError, Global};
use std::sync::Wait;
use worker_core::{Input, Output};

/// A worker, a client, and the client's latest connection.
#[derive(Drop)]
pub struct TwoEnds<R: Wait + Copy + Drop> {
    pub(crate) alloc: Global,
    pub(crate) worker: WorkerEnd,
    pub(crate) client: Client,
    pub(crate) connection: Connection<R>,
    /// The number of the client's latest connection.
    pub(crate) number: u32,
    /// Whether the client has a connection of whose end it has not learnt.
    pub(crate) is_connected: bool,
    /// The connections that were cut and of whose end the worker was not told.
    pub(crate) untold: Vec<u32>,
    pub(crate) now: u64,
    pub(crate) counts: Counts,
}

impl<R: Wait + Copy + Drop> TwoEnds<R> {
    /// A worker with empty logs, and a client that has not connected.
    pub fn new(alloc: Global, intents: Intents) -> anyhow::Result<TwoEnds<R>> {
        let token = Text::new(alloc, BOT_NAME)?;
        Ok(TwoEnds {
            alloc,
            worker: WorkerEnd::new(alloc)?,
            client: Client::new(alloc, token, intents),
            connection: Connection::none(alloc),
            number: 0,
            is_connected: false,
            untold: Vec::new(alloc),
            now: 0,
            counts: Counts::none(),
        })
    }

    /// What has happened, but for how it ended.
    pub fn counts(&self) -> Counts {
        let mut counts = self.counts;
        counts.runs = 1;
        counts.lost = self.connection.lost();
        counts.sessions = self.worker.sessions();
        counts
    }

    /// An edit comes to the log of a guild.
    pub fn edit(&mut self, guild: Snowflake, edit: Edit) -> Result<(), AllocError> {
        self.counts.edits = self.counts.edits.saturating_add(1);
        self.worker.push(guild, edit)
    }

    /// The worker looks at the log with this index.
    pub fn look(&mut self, index: usize) -> anyhow::Result<()> {
        let outputs = self.worker.look(index)?;
        self.send_all(outputs)
    }

    /// Time passes.
    pub fn tick(&mut self, millis: u32) -> anyhow::Result<()> {
        self.now = self.now.saturating_add(u64::from(millis));
        self.step(Input::Tick(self.now))
    }

    /// The worker is told of the end of a connection that was cut: that it was lost, or a code with which
    /// the client is said to have closed it.
    pub fn tell(&mut self, code: Option<u16>) -> anyhow::Result<()> {
        match (self.untold.pop(), code) {
            (Some(number), Some(code)) => self.step(Input::Closed(number, code)),
            (Some(number), None) => self.step(Input::Lost(number)),
            (None, _) => Ok(()),
        }
    }

    /// The worker is given the next text of the client. Whether there was one.
    pub fn give_worker(&mut self) -> anyhow::Result<bool> {
        match self.connection.next_to_worker()? {
            Incoming::Text(text) => {
                self.hear(text)?;
                Ok(true)
            }
            Incoming::Closed(_) => Ok(false),
            Incoming::NotYet => Ok(false),
        }
    }

    fn hear(&mut self, text: Text) -> anyhow::Result<()> {
        let said = said_in(self.alloc, text.as_str())?;
        let outputs = self.worker.step(Input::Frame(self.number, text))?;
        if said == Said::Resume {
            let answer = answer_of(self.alloc, outputs.as_slice())?;
            self.counts.add_answer(answer);
        }
        self.send_all(outputs)
    }

    pub(crate) fn step(&mut self, input: Input) -> anyhow::Result<()> {
        let outputs = self.worker.step(input)?;
        self.send_all(outputs)
    }

    fn send_all(&mut self, outputs: Vec<Output>) -> anyhow::Result<()> {
        for output in outputs {
            self.send(output)?;
        }
        Ok(())
    }

    fn send(&mut self, output: Output) -> anyhow::Result<()> {
        match output {
            Output::Send(number, text) => self.send_text(number, &text),
            Output::Close(number, code) => self.close(number, code),
            Output::Wish(guild, wished) => Ok(self.edit(guild, wished.into_edit())?),
        }
    }

    // What is sent on an older connection is lost.
    fn send_text(&mut self, number: u32, text: &Payload) -> anyhow::Result<()> {
        if number != self.number {
            self.connection.count_lost(1);
            return Ok(());
        }
        let text = text.to_text(self.alloc)?;
        self.connection.send_to_client(text.as_str())
    }

    fn close(&mut self, number: u32, code: u16) -> anyhow::Result<()> {
        if number != self.number {
            return Ok(());
        }
        self.counts.closes = self.counts.closes.saturating_add(1);
        self.connection.close_to_client(code)
    }
}
