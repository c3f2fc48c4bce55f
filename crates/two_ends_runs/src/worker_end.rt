//! The worker, with the logs that it looks at.

use crate::log::Log;
use crate::script::{BOT_NAME, BOT_USER, GUILDS};
use anyhow::bail;
use collections::Text;
use edit_apply::Edit;
use edit_text::{RING_BYTES, RING_ITEMS};
use intent_set::Intents;
use session_core::Bot;
use snowflake_id::Snowflake;
use std::alloc::{AllocError, Global};
use worker_core::{Input, Output, Worker};

/// The intents for which a bot needs a leave: members, presences and the content of messages.
const PRIVILEGED: u64 = 33_026;

/// A worker of one bot and two guilds, with the guilds' logs.
#[derive(Drop)]
pub struct WorkerEnd {
    worker: Worker,
    logs: Vec<Log>,
}

fn bot(alloc: Global) -> anyhow::Result<Bot> {
    Ok(Bot {
        token: Text::new(alloc, BOT_NAME)?,
        user: BOT_USER,
        name: Text::new(alloc, BOT_NAME)?,
        privileged: Intents::of_bits(PRIVILEGED)?,
        ring_items: RING_ITEMS,
        ring_bytes: RING_BYTES,
    })
}

fn worker(alloc: Global) -> anyhow::Result<Worker> {
    let url = Text::new(alloc, "ws://w0.gate.invalid")?;
    let mut bots = Vec::new(alloc);
    bots.push(bot(alloc)?)?;
    Ok(Worker::new(alloc, 0, url, bots, &GUILDS)?)
}

fn logs(alloc: Global) -> Result<Vec<Log>, AllocError> {
    let mut logs = Vec::new(alloc);
    for guild in &GUILDS {
        logs.push(Log::new(alloc, *guild))?;
    }
    Ok(logs)
}

impl WorkerEnd {
    /// A worker whose logs are empty.
    pub fn new(alloc: Global) -> anyhow::Result<WorkerEnd> {
        Ok(WorkerEnd {
            worker: worker(alloc)?,
            logs: logs(alloc)?,
        })
    }

    /// The logs of the guilds.
    pub fn logs(&self) -> &[Log] {
        self.logs.as_slice()
    }

    /// How many sessions it has made.
    pub fn sessions(&self) -> u64 {
        self.worker.made().sessions
    }

    /// An edit comes to the log of a guild.
    pub fn push(&mut self, guild: Snowflake, edit: Edit) -> Result<(), AllocError> {
        for log in &mut self.logs {
            if log.guild() == guild {
                return log.push(edit);
            }
        }
        drop(edit);
        Ok(())
    }

    /// The worker looks at the log with this index.
    pub fn look(&mut self, index: usize) -> anyhow::Result<Vec<Output>> {
        match self.logs.get_mut(index) {
            Some(log) => {
                let look = log.look();
                self.step(look)
            }
            None => bail!("there is no such log"),
        }
    }

    /// Something comes to the worker.
    pub fn step(&mut self, input: Input) -> anyhow::Result<Vec<Output>> {
        match self.worker.step(input) {
            Ok(outputs) => Ok(outputs),
            Err(fault) => bail!("the worker has ended: {fault:?}"),
        }
    }
}
