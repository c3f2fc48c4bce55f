//! How connections and sessions end (Gateway, Disconnecting; Sending Heartbeats).

ghost use Rattle.std.specs.Prelude.{◌≡◌, [], not, is_some, IfOk, OnOk, OnErr};
ghost use Rattle.session_core.specs.Ends.{is_final, lost, client_closed, all_gone, ticked, tick_replies, closes, session_conns, end_all_replies, all_ended};

use crate::Reply;
use crate::conn::Conn;
use crate::kept::Connection;
use crate::sessions::Sessions;
use collections::ById;
use gateway_frames::close::UNKNOWN_ERROR;
use std::alloc::{AllocError, Global};

/// Whether a client that closes its connection with this code will not resume (Gateway,
/// Disconnecting).
fn is_final(code: u16) -> bool
    ensures { result ≡ is_final code }
{
    code == 1000 || code == 1001
}

/// Close 4000 for each of these connections.
fn closes(alloc: Global, conns: &[Conn]) -> Result<Vec<Reply>, AllocError>
    ensures { IfOk result (λ replies. replies.items ≡ closes conns.now) }
{
    let mut replies = Vec::with_capacity(alloc, conns.len())?;
    for conn in conns {
        replies.push(Reply::Close(conn.0, UNKNOWN_ERROR))?;
    }
    Ok(replies)
}

impl Sessions {
    /// Removes a connection whose link is lost. Its session is detached from now on, and can be resumed.
    pub fn lost(&mut self, conn: u32, now: u64)
        ensures { self.new ≡ lost conn now self.old }
    {
        if self.is_open(conn) {
            self.detach(conn, now);
        }
    }

    /// Removes a connection that its client has closed with a code. With 1000 or 1001 its session ends,
    /// and is deleted; with any other code it can be resumed.
    pub fn closed(&mut self, conn: u32, code: u16, now: u64)
        ensures { self.new ≡ client_closed (λ x. []) conn code now self.old }
    {
        if !is_final(code) {
            self.lost(conn, now);
        } else if self.is_open(conn) {
            self.leave(conn);
        }
    }

    /// Removes each of these connections.
    fn detach_all(&mut self, conns: &[Conn], now: u64)
        ensures { self.new ≡ all_gone conns.now now self.old }
    {
        for conn in conns {
            self.detach(conn.0, now);
        }
    }

    /// Lets time pass. Closes each connection without a heartbeat for 82,500 ms, ascending by number;
    /// then ends each session without a connection for 180,000 ms. An `Err` changes nothing.
    pub fn tick(&mut self, now: u64) -> Result<Vec<Reply>, AllocError>
        ensures replies { IfOk result (λ replies. replies.items ≡ tick_replies now self.old) }
        ensures ticked { OnOk result (self.new ≡ ticked (λ x. []) now self.old) }
        ensures err { OnErr result (self.new ≡ self.old) }
    {
        let silent = self.silent(now)?;
        let replies = closes(self.alloc(), silent.as_slice())?;
        self.detach_all(silent.as_slice(), now);
        self.expire(now);
        Ok(replies)
    }

    /// The connections that have a session, in order of arrival.
    fn session_conns(&self) -> Result<Vec<Conn>, AllocError>
        ensures { IfOk result (λ conns. conns.items ≡ session_conns self.now) }
    {
        let mut conns = Vec::new(self.alloc());
        for index in 0..self.connections.len() {
            let Some((conn, connection)) = self.connections.get_index(index) else {
                break;
            };
            if connection.session.is_some() {
                conns.push(Conn(*conn))?;
            }
        }
        Ok(conns)
    }

    /// Removes all sessions, and the connections that have one.
    fn remove_sessions(&mut self)
        ensures { self.new ≡ all_ended (λ x. []) self.old }
    {
        self.connections.retain(
            |_conn: &u32, connection: &mut Connection| -> bool
                ensures { (result ≡ not (is_some connection.old.session)) × (connection.new ≡ connection.old) }
            { connection.session.is_none() },
        );
        self.sessions.clear();
    }

    /// Ends each session, attached or not. Closes each connection that has one with code 4000, in order
    /// of arrival. An `Err` changes nothing.
    pub fn end_all(&mut self) -> Result<Vec<Reply>, AllocError>
        ensures replies { IfOk result (λ replies. replies.items ≡ end_all_replies self.old) }
        ensures ended { OnOk result (self.new ≡ all_ended (λ x. []) self.old) }
        ensures err { OnErr result (self.new ≡ self.old) }
    {
        let conns = self.session_conns()?;
        let replies = closes(self.alloc(), conns.as_slice())?;
        self.remove_sessions();
        Ok(replies)
    }
}
