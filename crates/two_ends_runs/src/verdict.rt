//! Whether a run has ended right.

use crate::script::BOT_USER;
use crate::texts::{Said, last_number, said_in};
use crate::two_ends::TwoEnds;
use client_session::Act;
use dispatch_types::Viewer;
use intent_set::Intents;
use load_client::{agrees, viewer};
use std::alloc::AllocError;
use std::sync::Wait;

impl<R: Wait + Copy + Drop> TwoEnds<R> {
    // Whether the client holds of each guild what it may hold of the guild after all edits.
    fn agrees(&self, viewer: &Viewer) -> Result<bool, AllocError> {
        for log in self.worker.logs() {
            if !agrees(self.alloc, self.client.cache(), viewer, log.record())? {
                return Ok(false);
            }
        }
        Ok(true)
    }

    // The number that the client holds, which it says in a heartbeat.
    fn held_number(&mut self) -> anyhow::Result<Option<u64>> {
        let Some(Act::Send(text)) = self.client.next(u64::MAX)? else {
            return Ok(None);
        };
        match said_in(self.alloc, text.as_str())? {
            Said::Heartbeat(number) => Ok(number),
            _ => Ok(None),
        }
    }

    // Whether the worker has answered the last resume with RESUMED alone, after Hello, and RESUMED has the
    // number that the client holds. It is that of the session's last dispatch.
    fn is_at_last(&mut self) -> anyhow::Result<bool> {
        let held = self.held_number()?;
        let sent = self.connection.sent_to_client();
        let last = last_number(self.alloc, sent)?;
        Ok(sent.len() == 2 && last.is_some() && held == last)
    }

    /// Whether it has ended right, for a client with these intents: of each guild the client holds exactly
    /// the projection of the guild's record after all edits, the number that it holds is the worker's last,
    /// and no resume of it had a number that its session had not reached.
    pub fn is_right(&mut self, intents: Intents) -> anyhow::Result<bool> {
        let agrees = self.agrees(&viewer(BOT_USER, intents))?;
        let is_at_last = self.is_at_last()?;
        Ok(agrees && is_at_last && self.counts.ahead == 0)
    }
}
