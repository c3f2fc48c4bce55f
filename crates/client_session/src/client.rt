//! A client: its state, and what it does after each text and each loss of its connection.

ghost use Rattle.std.specs.Prelude.{◌≡◌, ◌⊎◌, ℕ, ◌∷◌, [], true, false, is_some, IfOk, IfErr, OnOk, OnErr, MatchResult, option_map, option_to_list};
ghost use Rattle.client_session.specs.declared.received.Received.{Received as AReceived};
ghost use Rattle.client_session.specs.declared.received.Received.TheVariants as payload;
ghost use Rattle.client_session.specs.declared.fault.ClientFault.TheVariants.{BadText, Memory};
ghost use Rattle.client_session.specs.Received.{IsTextOf, IsUnread};
ghost use Rattle.client_session.specs.State.{new_client, empty_cache};
ghost use Rattle.client_session.specs.Table.{frame_text, first_of, identify, heartbeat, dial, url_of, is_due, is_final, beaten, forgotten, unlinked, linked, after_loss, loss_answer};
ghost use Rattle.client_session.specs.Step.{Receives, Asks, StepsTo, Keeps};
ghost use Rattle.gateway_frames.specs.declared.out.Out.TheVariants.{Hello, Invalid, Reconnect};

use crate::heartbeat::{Heartbeat, is_due_at};
use crate::session::{Session, begun, hold};
use crate::{Act, ClientFault, Received, frames};
use client_cache::Cache;
use collections::Text;
use dispatch_types::Dispatch;
use gateway_frames::Out;
use gateway_frames::close::{
    AUTHENTICATION_FAILED, DISALLOWED_INTENTS, INVALID_API_VERSION, INVALID_INTENTS, INVALID_SEQ,
    INVALID_SHARD, SHARDING_REQUIRED, UNKNOWN_ERROR,
};
use intent_set::Intents;
use std::alloc::{AllocError, Global};
use std::marker::Model;

/// A bot's side of the protocol: its session, its connection and what it holds of its guilds (Gateway,
/// Connection Lifecycle). Its caller opens the first connection, hands over what comes, and does
/// what each call says.
pub struct Client {
    alloc: Global,
    token: Text,
    intents: Intents,
    session: Option<Session>,
    heartbeat: Option<Heartbeat>,
    cache: Cache,
}

// One call drops it, so that no crate above proves the drop of each of its parts again.
impl Drop for Client {
    fn drop(self) {
        let Client {
            alloc: _,
            token,
            intents: _,
            session,
            heartbeat: _,
            cache,
        } = self;
        drop(token);
        drop(session);
        drop(cache);
    }
}

impl Model for Client {
    ghost use Rattle.std.specs.Prelude.{◌≡◌};
    ghost use Rattle.client_cache.specs.Cached.{Cached};
    ghost use Rattle.client_session.specs.State.{ClientState};

    ghost Value = { ClientState Cached };

    ghost view = { λ c. record { token = c.token; intents = c.intents; session = c.session; heartbeat = c.heartbeat; kept = c.cache } };

    ghost invariant = { λ c. c.cache.intents ≡ c.intents };
}

/// One act alone.
fn one(alloc: Global, act: Act) -> Result<Vec<Act>, AllocError>
    ensures { IfOk result (λ acts. acts.items ≡ act ∷ []) }
{
    let acts = vec![in alloc; act]?;
    Ok(acts)
}

/// Two acts, in order.
fn two(alloc: Global, first: Act, second: Act) -> Result<Vec<Act>, AllocError>
    ensures { IfOk result (λ acts. acts.items ≡ first ∷ second ∷ []) }
{
    let acts = vec![in alloc; first, second]?;
    Ok(acts)
}

/// Whether a client may not connect again after this code: authentication failed, invalid shard,
/// sharding required, invalid API version, invalid or disallowed intents (Opcodes and Status Codes,
/// Gateway Close Event Codes).
fn is_final(code: u16) -> bool
    ensures { result ≡ is_final code }
{
    matches!(
        code,
        AUTHENTICATION_FAILED
            | INVALID_SHARD
            | SHARDING_REQUIRED
            | INVALID_API_VERSION
            | INVALID_INTENTS
            | DISALLOWED_INTENTS
    )
}

// What the client keeps.
impl Client {
    /// A client that has not connected yet, with what it identifies by.
    pub fn new(alloc: Global, token: Text, intents: Intents) -> Client
        ensures { result ≡ new_client token intents (empty_cache intents) }
    {
        Client {
            alloc,
            token,
            intents,
            session: None,
            heartbeat: None,
            cache: Cache::new(alloc, intents),
        }
    }

    /// What the client holds of its guilds, by all dispatches since the last READY.
    pub fn cache(&self) -> &Cache
        ensures { result.now ≡ self.now.kept }
    {
        &self.cache
    }

    /// The URL that READY gave for a resume. `None` exactly if there is no session.
    pub fn resume_url(&self) -> Option<&str>
        ensures { option_map (λ url. url.now) result ≡ option_map url_of self.now.session }
    {
        match &self.session {
            Some(session) => Some(session.url.as_str()),
            None => None,
        }
    }

    fn alloc(&self) -> Global {
        self.alloc
    }

    /// The first frame of a connection: Resume with a session, else Identify.
    fn first_text(&self) -> Result<Text, AllocError>
        ensures { IfOk result (λ text. text ≡ frame_text (first_of self.now)) }
    {
        match &self.session {
            Some(session) => frames::resume(self.alloc, &self.token, session),
            None => frames::identify(self.alloc, &self.token, self.intents),
        }
    }

    fn identify_text(&self) -> Result<Text, AllocError>
        ensures { IfOk result (λ text. text ≡ frame_text (identify self.now.token self.now.intents)) }
    {
        frames::identify(self.alloc, &self.token, self.intents)
    }

    fn heartbeat_text(&self) -> Result<Text, AllocError>
        ensures { IfOk result (λ text. text ≡ frame_text (heartbeat self.now.session)) }
    {
        frames::heartbeat(self.alloc, self.session.as_ref())
    }

    /// How the next connection is opened.
    fn dial(&self) -> Act
        ensures { result ≡ dial self.now.session }
    {
        match &self.session {
            Some(_) => Act::DialResume,
            None => Act::DialFirst,
        }
    }

    fn is_due(&self, now: u64) -> bool
        ensures { result ≡ is_due self.now now }
    {
        is_due_at(self.heartbeat, now)
    }

    /// Begins the heartbeats of a connection, at Hello.
    fn link(&mut self, interval_ms: u64, now: u64)
        ensures { self.new ≡ linked self.old interval_ms now }
    {
        self.heartbeat = Some(Heartbeat {
            interval_ms,
            since: now,
        });
    }

    /// Ends the heartbeats of a connection.
    fn unlink(&mut self)
        ensures { self.new ≡ unlinked self.old }
    {
        self.heartbeat = None;
    }

    /// Removes the session.
    fn forget(&mut self)
        ensures { self.new ≡ forgotten self.old }
    {
        self.session = None;
    }

    /// Counts the interval from a heartbeat that was sent.
    fn beat(&mut self, now: u64)
        ensures { self.new ≡ beaten self.old now }
    {
        if let Some(heartbeat) = &mut self.heartbeat {
            heartbeat.since = now;
        }
    }
}

// What the client does.
impl Client {
    /// Handles a text that came on the connection, at a moment in milliseconds (Gateway, Payload
    /// Structure). Folds a dispatch and holds its number; READY begins the session anew. Answers Hello
    /// and Invalid Session with Resume if there is a session, else Identify; Invalid Session with false
    /// first removes the session. After Reconnect it leaves the connection for another.
    ///
    /// `BadText` exactly if the text is neither a dispatch nor another payload. An `Err` changes
    /// nothing.
    pub fn on_text(&mut self, text: &str, now: u64) -> Result<Vec<Act>, ClientFault>
        ensures read { OnOk result ((payload : AReceived) × IsTextOf text.now payload) }
        ensures step { (payload : AReceived) → IsTextOf text.now payload → MatchResult result (λ acts. StepsTo self.old (Receives payload now) self.new acts.items) (λ fault. fault ≡ Memory) }
        ensures fault { IfErr result (λ fault. (fault ≡ Memory) ⊎ ((fault ≡ BadText) × IsUnread text.now)) }
        ensures err { OnErr result (self.new ≡ self.old) }
    {
        let received = Received::read(self.alloc(), text)?;
        self.on_received(received, now)
    }

    /// Handles a payload that was read, as `on_text` handles its text. An `Err` is out of memory and
    /// changes nothing.
    pub fn on_received(&mut self, received: Received, now: u64) -> Result<Vec<Act>, ClientFault>
        ensures { MatchResult result (λ acts. StepsTo self.old (Receives received now) self.new acts.items) (Keeps self.old self.new) }
    {
        match received {
            Received::Dispatch(dispatch, number) => self.on_dispatch(dispatch, number),
            Received::Other(out) => self.on_other(out, now),
        }
    }

    fn on_dispatch(&mut self, dispatch: Dispatch, number: u64) -> Result<Vec<Act>, ClientFault>
        ensures { (now : ℕ) → MatchResult result (λ acts. StepsTo self.old (Receives (payload.Dispatch dispatch number) now) self.new acts.items) (Keeps self.old self.new) }
    {
        let Ok(begun) = begun(self.alloc, &dispatch, number) else {
            drop(dispatch);
            return Err(ClientFault::Memory);
        };
        self.cache.fold(dispatch)?;
        hold(&mut self.session, begun, number);
        Ok(Vec::new(self.alloc))
    }

    fn on_other(&mut self, out: Out, now: u64) -> Result<Vec<Act>, ClientFault>
        ensures { MatchResult result (λ acts. StepsTo self.old (Receives (payload.Other out) now) self.new acts.items) (Keeps self.old self.new) }
    {
        match out {
            Out::Hello(interval_ms) => self.on_hello(interval_ms, now),
            Out::Ack => Ok(Vec::new(self.alloc())),
            Out::Invalid(true) => self.on_invalid(),
            Out::Invalid(false) => self.on_invalid_for_good(),
            Out::Reconnect => self.on_reconnect(),
            Out::Resumed(number) => self.on_dispatch(Dispatch::Resumed, number),
        }
    }

    fn on_hello(&mut self, interval_ms: u64, now: u64) -> Result<Vec<Act>, ClientFault>
        ensures { MatchResult result (λ acts. StepsTo self.old (Receives (payload.Other (Hello interval_ms)) now) self.new acts.items) (Keeps self.old self.new) }
    {
        let text = self.first_text()?;
        let acts = one(self.alloc(), Act::Send(text))?;
        self.link(interval_ms, now);
        Ok(acts)
    }

    fn on_invalid(&mut self) -> Result<Vec<Act>, ClientFault>
        ensures { (now : ℕ) → MatchResult result (λ acts. StepsTo self.old (Receives (payload.Other (Invalid true)) now) self.new acts.items) (Keeps self.old self.new) }
    {
        let text = self.first_text()?;
        Ok(one(self.alloc(), Act::Send(text))?)
    }

    fn on_invalid_for_good(&mut self) -> Result<Vec<Act>, ClientFault>
        ensures { (now : ℕ) → MatchResult result (λ acts. StepsTo self.old (Receives (payload.Other (Invalid false)) now) self.new acts.items) (Keeps self.old self.new) }
    {
        let text = self.identify_text()?;
        let acts = one(self.alloc(), Act::Send(text))?;
        self.forget();
        Ok(acts)
    }

    fn on_reconnect(&mut self) -> Result<Vec<Act>, ClientFault>
        ensures { (now : ℕ) → MatchResult result (λ acts. StepsTo self.old (Receives (payload.Other Reconnect) now) self.new acts.items) (Keeps self.old self.new) }
    {
        let acts = two(self.alloc(), Act::Hang(UNKNOWN_ERROR), self.dial())?;
        self.unlink();
        Ok(acts)
    }

    /// Handles the end of the connection, with the code if it was closed with one (Opcodes and Status
    /// Codes, Gateway Close Event Codes), and says how the next one is opened. 4007 removes the session.
    ///
    /// `Out` exactly if the code is 4004 or from 4010 to 4014, and then nothing changes.
    pub fn on_lost(&mut self, code: Option<u16>) -> Result<Act, ClientFault>
        ensures answer { result ≡ loss_answer self.old code }
        ensures state { self.new ≡ after_loss self.old code }
    {
        let Some(code) = code else {
            self.unlink();
            return Ok(self.dial());
        };
        if is_final(code) {
            return Err(ClientFault::Out(code));
        }
        self.unlink();
        if code == INVALID_SEQ {
            self.forget();
        }
        Ok(self.dial())
    }

    /// The heartbeat that is due at this moment, if one is (Gateway, Sending Heartbeats): its interval
    /// has passed since Hello or the last heartbeat. It counts as sent then. An `Err` changes nothing.
    pub fn next(&mut self, now: u64) -> Result<Option<Act>, AllocError>
        ensures step { IfOk result (λ act. StepsTo self.old (Asks now) self.new (option_to_list act)) }
        ensures due { IfOk result (λ act. is_some act ≡ is_due self.old now) }
        ensures err { OnErr result (self.new ≡ self.old) }
    {
        if !self.is_due(now) {
            return Ok(None);
        }
        let text = self.heartbeat_text()?;
        self.beat(now);
        Ok(Some(Act::Send(text)))
    }
}
