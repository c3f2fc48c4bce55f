//! The reply to each frame of a client (Gateway Events, Send Events; Opcodes and Status Codes).

ghost use Rattle.std.specs.Prelude.{◌≡◌, ◌∷◌, [], true, false, Err, MatchResult, IfOk, OnOk, OnErr};
ghost use Rattle.session_core.specs.declared.fault.SessionFault.TheVariants.{Spent, Memory};
ghost use Rattle.session_core.specs.State.{has_connection, has_session, number_on};
ghost use Rattle.session_core.specs.Frames.{Answers, ClosesWith, Begins, fault_code, move_in_session, move_before_session, move_of, framed, read_move, move_replies, is_spent, identify_move, resume_move, Denies, none_sent, as_kept, Done, Refused};
ghost use Rattle.gateway_frames.specs.Read.{frame_of};
ghost use Rattle.session_core.specs.Resume.{resume_answer};
ghost use Rattle.session_core.specs.Identify.{identified};

use crate::resume::ResumeAnswer;
use crate::sessions::{Sessions, one};
use crate::{Bot, Reply, SessionFault};
use dispatch_types::Viewer;
use gateway_frames::close::{
    ALREADY_AUTHENTICATED, DECODE_ERROR, INVALID_SEQ, NOT_AUTHENTICATED, RATE_LIMITED,
    UNKNOWN_OPCODE,
};
use gateway_frames::{Frame, FrameFault, Identify, Out, Resume};

/// The close code for an invalid frame.
fn code_of(fault: FrameFault) -> u16
    ensures { result ≡ fault_code fault }
{
    match fault {
        FrameFault::UnknownOp => UNKNOWN_OPCODE,
        _ => DECODE_ERROR,
    }
}

impl Sessions {
    /// Acknowledges a heartbeat.
    fn answer(&mut self, conn: u32, now: u64) -> Result<Vec<Reply>, SessionFault>
        ensures { MatchResult result (λ replies. Done conn now Answers self.old self.new replies.items) (Refused Answers self.old self.new) }
    {
        let replies = one(self.alloc(), Reply::Send(conn, Out::Ack))?;
        self.heartbeat(conn, now);
        Ok(replies)
    }

    /// Closes a connection. Its session may be resumed.
    fn close(&mut self, conn: u32, code: u16, now: u64) -> Result<Vec<Reply>, SessionFault>
        ensures { MatchResult result (λ replies. Done conn now (ClosesWith code) self.old self.new replies.items) (Refused (ClosesWith code) self.old self.new) }
    {
        let replies = one(self.alloc(), Reply::Close(conn, code))?;
        self.detach(conn, now);
        Ok(replies)
    }

    /// Begins a session on a connection that has none.
    fn begin(&mut self, conn: u32, bot: Bot, viewer: Viewer) -> Result<Vec<Reply>, SessionFault>
        requires connected { has_connection conn self.old ≡ true }
        requires free { has_session conn self.old ≡ false }
        ensures { MatchResult result (λ replies. Done conn 0 (Begins bot viewer) self.old self.new replies.items) (Refused (Begins bot viewer) self.old self.new) }
    {
        if self.made() == u32::MAX {
            return Err(SessionFault::Spent);
        }
        let replies = one(self.alloc(), Reply::Begin(self.made() + 1))?;
        self.add_session(conn, bot, viewer)?;
        Ok(replies)
    }

    /// Begins a session, or closes the connection.
    fn on_identify(
        &mut self,
        conn: u32,
        identify: &Identify,
        now: u64,
    ) -> Result<Vec<Reply>, SessionFault>
        requires connected { has_connection conn self.old ≡ true }
        requires free { has_session conn self.old ≡ false }
        ensures { let move = identify_move identify.now (identified self.old identify.now) in
            MatchResult result (λ replies. Done conn now move self.old self.new replies.items) (Refused move self.old self.new) }
    {
        match self.identify(identify)? {
            Err(code) => self.close(conn, code, now),
            Ok((bot, viewer)) => self.begin(conn, bot, viewer),
        }
    }

    /// Says that the session cannot be resumed.
    fn deny(&mut self, conn: u32) -> Result<Vec<Reply>, SessionFault>
        ensures { MatchResult result (λ replies. Done conn 0 Denies self.old self.new replies.items) (Refused Denies self.old self.new) }
    {
        let replies = one(self.alloc(), Reply::Send(conn, Out::Invalid(false)))?;
        Ok(replies)
    }

    /// Resumes a session, says that it cannot be resumed, or closes the connection.
    fn on_resume(
        &mut self,
        conn: u32,
        resume: &Resume,
        now: u64,
    ) -> Result<Vec<Reply>, SessionFault>
        requires connected { has_connection conn self.old ≡ true }
        requires free { has_session conn self.old ≡ false }
        ensures { let move = resume_move (resume_answer as_kept self.old resume.now) in
            MatchResult result (λ replies. Done conn now move self.old self.new replies.items) (Refused move self.old self.new) }
    {
        match self.resume_answer(conn, resume)? {
            ResumeAnswer::NotResumable => self.deny(conn),
            ResumeAnswer::InvalidSeq => self.close(conn, INVALID_SEQ, now),
            ResumeAnswer::Resumed(session) => {
                self.resume(conn, session.number, session.older, now);
                Ok(session.replies)
            }
        }
    }

    /// A frame on a connection that has no session.
    fn frame_before_session(
        &mut self,
        conn: u32,
        frame: &Frame,
        now: u64,
    ) -> Result<Vec<Reply>, SessionFault>
        requires connected { has_connection conn self.old ≡ true }
        requires free { has_session conn self.old ≡ false }
        ensures { let move = move_before_session as_kept self.old frame.now in
            MatchResult result (λ replies. Done conn now move self.old self.new replies.items) (Refused move self.old self.new) }
    {
        match frame {
            Frame::Heartbeat(_) => self.answer(conn, now),
            Frame::Identify(identify) => self.on_identify(conn, identify, now),
            Frame::Resume(resume) => self.on_resume(conn, resume, now),
            Frame::Presence(_) | Frame::Voice(_) | Frame::Ask(_) => {
                self.close(conn, NOT_AUTHENTICATED, now)
            }
        }
    }

    /// A frame on the connection of the session of a number.
    fn frame_in_session(
        &mut self,
        conn: u32,
        number: u32,
        frame: Frame,
        now: u64,
    ) -> Result<Vec<Reply>, SessionFault>
        ensures { let move = move_in_session number frame in
            MatchResult result (λ replies. Done conn now move self.old self.new replies.items) (Refused move self.old self.new) }
    {
        match frame {
            Frame::Heartbeat(_) => self.answer(conn, now),
            Frame::Identify(_) | Frame::Resume(_) => self.close(conn, ALREADY_AUTHENTICATED, now),
            Frame::Presence(status) => self.hand_on(Reply::Presence(number, status)),
            Frame::Voice(ask) => self.hand_on(Reply::Voice(number, ask)),
            Frame::Ask(ask) => self.hand_on(Reply::Ask(number, ask)),
        }
    }

    /// Hands a client's request on to the worker, which has the guilds.
    fn hand_on(&mut self, reply: Reply) -> Result<Vec<Reply>, SessionFault>
        ensures { MatchResult result
            (λ replies. (replies.items ≡ reply ∷ []) × (self.new ≡ self.old))
            (λ fault. (fault ≡ Memory) × (self.new ≡ self.old)) }
    {
        let replies = one(self.alloc(), reply)?;
        Ok(replies)
    }
}

impl Sessions {
    /// Handles a text of a client, and replies (Gateway, Sending Events; Opcodes and Status Codes).
    /// On a connection that is not open it does nothing. An `Err` changes nothing.
    pub fn frame(&mut self, conn: u32, text: &str, now: u64) -> Result<Vec<Reply>, SessionFault>
        ensures replies { IfOk result (λ replies. replies.items ≡ move_replies conn (move_of as_kept self.old now conn text.now) self.old) }
        ensures moved { OnOk result (self.new ≡ framed conn now none_sent (move_of as_kept self.old now conn text.now) self.old) }
        ensures counted { OnOk result (is_spent (move_of as_kept self.old now conn text.now) self.old ≡ false) }
        ensures spent { result ≡ Err Spent → is_spent (move_of as_kept self.old now conn text.now) self.old ≡ true }
        ensures err { OnErr result (self.new ≡ self.old) }
    {
        let replies = self.handle(conn, text, now)?;
        self.count_frame(conn, now);
        Ok(replies)
    }

    /// Handles a text, but does not count it.
    fn handle(&mut self, conn: u32, text: &str, now: u64) -> Result<Vec<Reply>, SessionFault>
        ensures { let move = move_of as_kept self.old now conn text.now in
            MatchResult result (λ replies. Done conn now move self.old self.new replies.items) (Refused move self.old self.new) }
    {
        if !self.is_open(conn) {
            return Ok(Vec::new(self.alloc()));
        }
        if self.is_rated(conn, now) {
            return self.close(conn, RATE_LIMITED, now);
        }
        self.read(conn, text, now)
    }

    /// Reads a text on an open connection that has not sent too many.
    fn read(&mut self, conn: u32, text: &str, now: u64) -> Result<Vec<Reply>, SessionFault>
        requires { has_connection conn self.old ≡ true }
        ensures { let move = read_move as_kept self.old (number_on conn self.old) (frame_of text.now) in
            MatchResult result (λ replies. Done conn now move self.old self.new replies.items) (Refused move self.old self.new) }
    {
        match Frame::read(self.alloc(), text) {
            Err(FrameFault::Memory) => Err(SessionFault::Memory),
            Err(fault) => self.close(conn, code_of(fault), now),
            Ok(frame) => match self.number_on(conn) {
                Some(number) => self.frame_in_session(conn, number, frame, now),
                None => self.frame_before_session(conn, &frame, now),
            },
        }
    }
}
