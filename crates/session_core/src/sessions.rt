//! The connections and sessions of one worker, and each change of them.

ghost use Rattle.std.specs.Prelude.{◌≡◌, ◌<◌, ◌^◌, ◌==◌, option_map, Some, None, ◌-◌, true, false, not, nat_lt, ◌∷◌, [], length, map, is_some, IfOk, OnOk, OnErr};
ghost use Rattle.session_core.specs.State.{no_sessions, live, has_session, number_on, gone, begun, Detached, has_connection, with_connection, opened, open_replies, after_heartbeat, attached};
ghost use Rattle.std.specs.Option.{option_copied, option_and_then};
ghost use Rattle.session_core.specs.Rate.{is_rated, frame_counted};
ghost use Rattle.session_core.specs.Resume.{attached_to, session_named};
ghost use Rattle.session_core.specs.Frames.{none_sent};
ghost use Rattle.session_core.specs.Identify.{identified, start_as};
ghost use Rattle.session_core.specs.Kept.{condition_of, session_of};
ghost use Rattle.std.specs.List.{find};
ghost use Rattle.session_core.specs.Ends.{is_overdue, left, silent_of, expired};

use crate::authorize::{authorize, bot_of};
use crate::conn::Conn;
use crate::ids::number_of;
use crate::kept::{Condition, Connection, Session};
use crate::window::Window;
use crate::{Bot, Holder, Reply};
use collections::ById;
use dispatch_types::Viewer;
use gateway_frames::close::{AUTHENTICATION_FAILED, UNKNOWN_ERROR};
use gateway_frames::{Identify, Out};
use indexmap::IndexMap;
use replay_ring::Ring;
use std::alloc::{AllocError, Global};
use std::marker::Model;

/// The most connections that a worker has at a time.
const MAX_CONNECTIONS: usize = 64;

/// The milliseconds between heartbeats (Gateway, Hello event).
const HEARTBEAT_INTERVAL_MS: u64 = 41_250;

/// The connections and sessions of one worker (Gateway, Connection Lifecycle).
pub struct Sessions {
    alloc: Global,
    worker: u8,
    bots: Vec<Bot>,
    made: u32,
    pub(crate) connections: IndexMap<u32, Connection>,
    pub(crate) sessions: IndexMap<u32, Session>,
}

impl Drop for Sessions {
    fn drop(self) {
        let Sessions {
            alloc: _,
            worker: _,
            bots,
            made: _,
            connections,
            sessions,
        } = self;
        drop(bots);
        drop(connections);
        drop(sessions);
    }
}

impl Model for Sessions {
    ghost use Rattle.std.specs.Prelude.{ℕ, map};
    ghost use Rattle.session_core.specs.State.{State};
    ghost use Rattle.replay_ring.specs.Replay.{Replay};

    ghost Value = { State Replay };

    ghost use Rattle.session_core.specs.Kept.{connection_of, session_of, IsKept, AreHeld};

    ghost view = { λ s. record { worker = s.worker; bots = s.bots.items; made = s.made; connections = map connection_of s.connections.entries; sessions = map session_of s.sessions.entries } };

    ghost invariant = { λ s. IsKept s.made s.connections.entries s.sessions.entries × AreHeld s.worker s.sessions.entries };
}

/// A list of one reply.
pub(crate) fn one(alloc: Global, reply: Reply) -> Result<Vec<Reply>, AllocError>
    ensures { IfOk result (λ replies. replies.items ≡ reply ∷ []) }
{
    let replies = vec![in alloc; reply]?;
    Ok(replies)
}

impl Sessions {
    /// No connection and no session.
    pub fn new(alloc: Global, worker: u8, bots: Vec<Bot>) -> Sessions
        ensures { result ≡ no_sessions worker bots.items }
    {
        Sessions {
            alloc,
            worker,
            bots,
            made: 0,
            connections: IndexMap::new(alloc),
            sessions: IndexMap::new(alloc),
        }
    }

    /// The number of the worker.
    pub fn worker(&self) -> u8
        ensures { result ≡ self.now.worker }
    {
        self.worker
    }

    /// The allocator.
    pub(crate) fn alloc(&self) -> Global {
        self.alloc
    }

    /// The number of sessions that were made.
    pub fn made(&self) -> u32
        ensures { result ≡ self.now.made }
    {
        self.made
    }

    /// The number of live sessions.
    pub fn len(&self) -> usize
        ensures sessions { result ≡ length self.now.sessions }
        ensures live { result ≡ length (live self.now) }
    {
        self.sessions.len()
    }

    /// The bot that may begin a session, with its viewer, or the close code by which it may not (Gateway
    /// Events, Identify).
    #[tactic(auto, unfolding(crate::specs::Identify::identified))]
    pub(crate) fn identify(
        &self,
        identify: &Identify,
    ) -> Result<Result<(Bot, Viewer), u16>, AllocError>
        ensures { IfOk result (λ start. start ≡ start_as identify.now (identified self.now identify.now)) }
    {
        let Some(bot) = bot_of(self.bots.as_slice(), identify.token.as_str()) else {
            return Ok(Err(AUTHENTICATION_FAILED));
        };
        match authorize(self.len(), identify, bot) {
            Err(code) => Ok(Err(code)),
            Ok(viewer) => Ok(Ok((bot.copy(self.alloc)?, viewer))),
        }
    }

    /// Whether a connection is open.
    pub(crate) fn is_open(&self, conn: u32) -> bool
        ensures { result ≡ has_connection conn self.now }
    {
        self.connections.contains_key(&conn)
    }

    /// Whether another connection may be opened.
    fn has_room(&self) -> bool
        ensures { result ≡ nat_lt (length self.now.connections) 64 }
    {
        self.connections.len() < MAX_CONNECTIONS
    }

    /// Adds a connection that is not open.
    fn add(&mut self, conn: u32, now: u64) -> Result<(), AllocError>
        requires { has_connection conn self.old ≡ false }
        ensures ok { OnOk result (self.new ≡ with_connection conn now self.old) }
        ensures err { OnErr result (self.new ≡ self.old) }
    {
        let times = Window::new(self.alloc)?;
        let connection = Connection {
            last_heartbeat_ms: now,
            times,
            session: None,
        };
        self.connections.insert(conn, connection)?;
        Ok(())
    }

    /// Opens a connection, and says Hello (Gateway, Hello event). Closes it if there are 64 connections;
    /// does nothing if it is open already. An `Err` changes nothing.
    pub fn open(&mut self, conn: u32, now: u64) -> Result<Vec<Reply>, AllocError>
        ensures replies { IfOk result (λ replies. replies.items ≡ open_replies conn self.old) }
        ensures opened { OnOk result (self.new ≡ opened conn now self.old) }
        ensures err { OnErr result (self.new ≡ self.old) }
    {
        if self.is_open(conn) {
            return Ok(Vec::new(self.alloc));
        }
        if !self.has_room() {
            return one(self.alloc, Reply::Close(conn, UNKNOWN_ERROR));
        }
        let hello = Out::Hello(HEARTBEAT_INTERVAL_MS);
        let replies = one(self.alloc, Reply::Send(conn, hello))?;
        self.add(conn, now)?;
        Ok(replies)
    }

    /// Counts a heartbeat.
    pub(crate) fn heartbeat(&mut self, conn: u32, now: u64)
        ensures { self.new ≡ after_heartbeat conn now self.old }
    {
        let Some(connection) = self.connections.get_mut(&conn) else {
            return;
        };
        connection.last_heartbeat_ms = now;
    }

    /// Whether another frame of a connection is one too many (Gateway, Rate Limiting).
    pub(crate) fn is_rated(&self, conn: u32, now: u64) -> bool
        ensures { result ≡ is_rated conn now self.now }
    {
        match self.connections.get(&conn) {
            Some(connection) => connection.times.is_crowded(now),
            None => false,
        }
    }

    /// Counts a frame.
    pub(crate) fn count_frame(&mut self, conn: u32, now: u64)
        ensures { self.new ≡ frame_counted conn now self.old }
    {
        let Some(connection) = self.connections.get_mut(&conn) else {
            return;
        };
        connection.times.count_frame(now);
    }

    /// The number of the live session of an id, if it exists.
    pub(crate) fn number_named(&self, id: &str) -> Result<Option<u32>, AllocError>
        ensures { IfOk result (λ number. session_named id.now self.now ≡ option_and_then (λ n. find (λ x. x.number == n) self.now.sessions) number) }
    {
        let number = number_of(self.alloc, self.worker, id)?;
        Ok(number)
    }

    /// The live session of a number.
    pub(crate) fn session(&self, number: u32) -> Option<&Session>
        ensures { option_map (λ x. session_of (number, x)) (option_copied result) ≡ find (λ x. x.number == number) self.now.sessions }
    {
        self.sessions.get(&number)
    }

    /// Attaches a detached session to a connection that has no session.
    pub(crate) fn attach(&mut self, conn: u32, number: u32)
        requires connected { has_connection conn self.old ≡ true }
        requires free { has_session conn self.old ≡ false }
        requires there { option_map (λ x. attached x.condition) (find (λ x. x.number == number) self.old.sessions) ≡ Some None }
        ensures { self.new ≡ attached_to conn number self.old }
    {
        let Some(session) = self.sessions.get_mut(&number) else {
            return;
        };
        session.condition = Condition::Attached(conn);
        let Some(connection) = self.connections.get_mut(&conn) else {
            return;
        };
        connection.session = Some(number);
    }

    /// The number of a connection's session, if it has one.
    pub(crate) fn number_on(&self, conn: u32) -> Option<u32>
        ensures number { result ≡ number_on conn self.now }
        ensures has { is_some result ≡ has_session conn self.now }
    {
        match self.connections.get(&conn) {
            Some(connection) => connection.session,
            None => None,
        }
    }

    /// Removes a connection. Its session is detached.
    pub(crate) fn detach(&mut self, conn: u32, now: u64)
        ensures { self.new ≡ gone conn (Detached now) self.old }
    {
        let Some(connection) = self.connections.shift_remove(&conn) else {
            return;
        };
        let Some(number) = connection.session else {
            return;
        };
        let Some(session) = self.sessions.get_mut(&number) else {
            return;
        };
        session.condition = Condition::Detached(now);
    }

    /// Removes a connection and its session.
    pub(crate) fn leave(&mut self, conn: u32)
        ensures { self.new ≡ left (λ x. []) conn self.old }
    {
        let Some(connection) = self.connections.shift_remove(&conn) else {
            return;
        };
        let Some(number) = connection.session else {
            return;
        };
        self.sessions.shift_remove(&number);
    }

    /// The connections without a heartbeat for two intervals, ascending.
    pub(crate) fn silent(&self, now: u64) -> Result<ById<Conn>, AllocError>
        ensures { IfOk result (λ conns. conns ≡ silent_of now self.now.connections) }
    {
        let mut conns = ById::new(self.alloc);
        for index in 0..self.connections.len() {
            let Some((conn, connection)) = self.connections.get_index(index) else {
                break;
            };
            if connection.is_silent(now) {
                conns.put(Conn(*conn))?;
            }
        }
        Ok(conns)
    }

    /// Ends the sessions that have had no connection for three minutes.
    pub(crate) fn expire(&mut self, now: u64)
        ensures { self.new ≡ expired (λ x. []) now self.old }
    {
        self.sessions.retain(
            |_number: &u32, session: &mut Session| -> bool
                ensures { (result ≡ not (is_overdue now (condition_of session.old.condition))) × (session.new ≡ session.old) }
            { !session.condition.is_overdue(now) },
        );
    }

    /// Adds a session on a connection that has none.
    pub(crate) fn add_session(
        &mut self,
        conn: u32,
        bot: Bot,
        viewer: Viewer,
    ) -> Result<(), AllocError>
        requires connected { has_connection conn self.old ≡ true }
        requires free { has_session conn self.old ≡ false }
        requires counted { self.old.made < 2 ^ 32 - 1 }
        ensures ok { OnOk result (self.new ≡ begun conn bot viewer (none_sent bot viewer) self.old) }
        ensures err { OnErr result (self.new ≡ self.old) }
    {
        let number = self.made + 1;
        let holder = Holder::new(self.alloc, self.worker, number, bot.name, &viewer)?;
        let sent = Ring::new(self.alloc, bot.ring_items as usize, bot.ring_bytes as usize)?;
        let session = Session::new(bot.token, holder, viewer, conn, sent);
        self.sessions.insert(number, session)?;
        self.made = number;
        let Some(connection) = self.connections.get_mut(&conn) else {
            return Ok(());
        };
        connection.session = Some(number);
        Ok(())
    }
}
