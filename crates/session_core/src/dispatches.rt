//! The live sessions by their numbers: whom each is for, and its dispatches (Gateway, Resuming).

ghost use Rattle.std.specs.Prelude.{◌≡◌, ◌↔◌, ◌-◌, ◌^◌, ◌<◌, Some, true, length, option_map, slice_get, IsErr, IsSome, IfSome, IfOk, OnOk, OnErr};
ghost use Rattle.std.specs.Option.{option_copied};
ghost use Rattle.session_core.specs.State.{live, attached, session_number, session_numbered, AreNumberedOnce};
ghost use Rattle.session_core.specs.Holders.{holder_of};
ghost use Rattle.session_core.specs.Pushes.{number_after, pushed_to, next_number, has_next_at, pushed_at};

use crate::sessions::Sessions;
use crate::{Holder, Mark, Spent};
use dispatch_types::Viewer;
use payload_text::Payload;

impl Sessions {
    /// The number of the live session at an index, in order of making. `None` exactly if there are not
    /// so many.
    pub fn live(&self, index: usize) -> Option<u32>
        ensures number { result ≡ option_map session_number (slice_get (live self.now) index) }
        ensures all { live self.now ≡ self.now.sessions }
        ensures once { AreNumberedOnce self.now }
    {
        let Some((number, _)) = self.sessions.get_index(index) else {
            return None;
        };
        Some(*number)
    }

    /// Whom a session is for. `None` exactly if it is not live.
    pub fn holder(&self, session: u32) -> Option<&Holder>
        ensures holder { option_copied result ≡ option_map (holder_of self.now.worker) (session_numbered session self.now) }
        ensures once { AreNumberedOnce self.now }
    {
        let Some(session) = self.sessions.get(&session) else {
            return None;
        };
        Some(&session.holder)
    }

    /// The number of a session's next dispatch, or 2^64 - 1 if its last dispatch has that number. `None`
    /// exactly if the session is not live.
    pub fn next_number(&self, session: u32) -> Option<u64>
        ensures { result ≡ option_map number_after (session_numbered session self.now) }
    {
        let Some(session) = self.sessions.get(&session) else {
            return None;
        };
        Some(session.sent.last().saturating_add(1))
    }

    /// Keeps the text of a live session's next dispatch for a resume, and gives the session's connection:
    /// `None` exactly if it is detached. `Spent` exactly if its last number is 2^64 - 1. An `Err`
    /// changes nothing. The mark, which says why the dispatch was made, is not kept.
    pub fn push(&mut self, session: u32, _mark: Mark, text: Payload) -> Result<Option<u32>, Spent>
        requires { IsSome (session_numbered session self.old) }
        ensures conn { IfOk result (λ conn. option_map (λ x. attached x.condition) (session_numbered session self.old) ≡ Some conn) }
        ensures pushed { OnOk result (self.new ≡ pushed_to session text self.old) }
        ensures room { OnOk result (IfSome (session_numbered session self.old) (λ x. x.sent.last < 2 ^ 64 - 1)) }
        ensures spent { IsErr result ↔ (option_map (λ x. x.sent.last) (session_numbered session self.old) ≡ Some (2 ^ 64 - 1)) }
        ensures err { OnErr result (self.new ≡ self.old) }
        ensures once { AreNumberedOnce self.old }
    {
        let Some(session) = self.sessions.get_mut(&session) else {
            return Ok(None);
        };
        if session.sent.last() == u64::MAX {
            return Err(Spent);
        }
        session.sent.push(text);
        Ok(session.condition.conn())
    }
}

// By index, for a caller that goes over all live sessions for each entry of a log: nothing has to be found.
impl Sessions {
    /// The viewer of the live session at an index.
    pub fn viewer_at(&self, index: usize) -> Option<&Viewer>
        ensures { option_copied result ≡ option_map (λ x. x.viewer) (slice_get self.now.sessions index) }
    {
        let (_, session) = self.sessions.get_index(index)?;
        Some(&session.viewer)
    }

    /// The number of the next dispatch of the live session at an index. `Spent` exactly if its last
    /// number is 2^64 - 1.
    pub fn next_at(&self, index: usize) -> Result<u64, Spent>
        requires { index < length self.now.sessions }
        ensures number { IfOk result (λ number. option_map next_number (slice_get self.now.sessions index) ≡ Some number) }
        ensures fits { IfOk result (λ number. number < 2 ^ 64) }
        ensures room { IfOk result (λ number. has_next_at index self.now ≡ true) }
        ensures spent { IsErr result ↔ (option_map (λ x. x.sent.last) (slice_get self.now.sessions index) ≡ Some (2 ^ 64 - 1)) }
    {
        let Some((_, session)) = self.sessions.get_index(index) else {
            return Err(Spent);
        };
        let last = session.sent.last();
        if last == u64::MAX {
            return Err(Spent);
        }
        Ok(last + 1)
    }

    /// The connection of the live session at an index.
    pub fn conn_at(&self, index: usize) -> Option<u32>
        requires { index < length self.now.sessions }
        ensures { option_map (λ x. attached x.condition) (slice_get self.now.sessions index) ≡ Some result }
    {
        let (_, session) = self.sessions.get_index(index)?;
        session.condition.conn()
    }

    /// Keeps the text of the next dispatch of the live session at an index, for a resume.
    pub fn push_at(&mut self, index: usize, text: Payload)
        requires there { index < length self.old.sessions }
        requires room { has_next_at index self.old ≡ true }
        ensures { self.new ≡ pushed_at index text self.old }
    {
        let (_, session) = self.sessions.pair_mut(index);
        session.sent.push(text);
    }
}
