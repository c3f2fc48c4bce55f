//! How sessions resume (Gateway, Resuming).

ghost use Rattle.std.specs.Prelude.{◌≡◌, ◌==◌, ◌-◌, ◌≤◌, ◌++◌, ℕ, true, false, Some, None, map, length, option_map, IfOk, OnOk};
ghost use Rattle.std.specs.List.{find};
ghost use Rattle.session_core.specs.declared.reply.Reply.TheVariants.{Text as Texts};
ghost use Rattle.session_core.specs.State.{has_connection, has_session, attached};
ghost use Rattle.session_core.specs.Frames.{as_kept};
ghost use Rattle.session_core.specs.Resume.{older_closes, resume_replies, resume_answer, resumed};
ghost use Rattle.session_core.specs.Resumption.{Matches, IsOwn, IsThere, answer_of};

use crate::Reply;
use crate::kept::Session;
use crate::sessions::Sessions;
use gateway_frames::close::UNKNOWN_ERROR;
use gateway_frames::{Out, Resume};
use replay_ring::{After, Ring};
use std::alloc::{AllocError, Global};

/// A session that resumes.
#[derive(Drop)]
pub struct ResumedSession {
    pub number: u32,
    /// The connection that it still has.
    pub older: Option<u32>,
    pub replies: Vec<Reply>,
}

/// The answer to a resume.
#[derive(Drop)]
pub enum ResumeAnswer {
    /// The session does not exist, has another token, or no longer holds the number.
    NotResumable,
    /// The session has not reached the number.
    InvalidSeq,
    /// The session resumes.
    Resumed(ResumedSession),
}

/// Close 4000 for the connection that a session still has.
fn older_closes(alloc: Global, older: Option<u32>) -> Result<Vec<Reply>, AllocError>
    ensures { IfOk result (λ replies. replies.items ≡ older_closes older) }
{
    let mut replies = Vec::new(alloc);
    let Some(conn) = older else {
        return Ok(replies);
    };
    replies.push(Reply::Close(conn, UNKNOWN_ERROR))?;
    Ok(replies)
}

/// Adds texts, each as a reply.
fn add_texts(conn: u32, texts: After<'_>, replies: &mut Vec<Reply>) -> Result<(), AllocError>
    ensures { OnOk result (replies.new.items ≡ replies.old.items ++ map (λ text. Texts conn text) texts.entry) }
{
    for text in texts {
        replies.push(Reply::Text(conn, text.share()?))?;
    }
    Ok(())
}

/// The replies to a resume: the texts with numbers above `seq`, and then RESUMED.
fn replies_of(
    alloc: Global,
    conn: u32,
    older: Option<u32>,
    seq: u64,
    sent: &Ring,
) -> Result<Vec<Reply>, AllocError>
    requires held { sent.now.last - length sent.now.held ≤ seq }
    requires past { seq ≤ sent.now.last }
    ensures { IfOk result (λ replies. replies.items ≡ resume_replies conn older seq sent.now) }
{
    let mut replies = older_closes(alloc, older)?;
    add_texts(conn, sent.after(seq), &mut replies)?;
    replies.push(Reply::Send(conn, Out::Resumed(sent.last())))?;
    Ok(replies)
}

/// The answer to a resume of this session.
fn answer_of(
    alloc: Global,
    conn: u32,
    number: u32,
    session: &Session,
    resume: &Resume,
) -> Result<ResumeAnswer, AllocError>
    ensures answer { IfOk result (λ answer. Matches conn answer (answer_of number session.now resume.now)) }
    ensures own { IfOk result (λ answer. IsOwn number session.now answer) }
{
    if !session.token.is(resume.token.as_str()) {
        return Ok(ResumeAnswer::NotResumable);
    }
    if resume.seq > session.sent.last() {
        return Ok(ResumeAnswer::InvalidSeq);
    }
    if !session.sent.covers(resume.seq) {
        return Ok(ResumeAnswer::NotResumable);
    }
    let older = session.condition.conn();
    let replies = replies_of(alloc, conn, older, resume.seq, &session.sent)?;
    Ok(ResumeAnswer::Resumed(ResumedSession {
        number,
        older,
        replies,
    }))
}

impl Sessions {
    /// The answer to a resume on a connection.
    pub(crate) fn resume_answer(
        &self,
        conn: u32,
        resume: &Resume,
    ) -> Result<ResumeAnswer, AllocError>
        ensures answer { IfOk result (λ answer. Matches conn answer (resume_answer as_kept self.now resume.now)) }
        ensures there { IfOk result (λ answer. IsThere self.now answer) }
    {
        let Some(number) = self.number_named(resume.session.as_str())? else {
            return Ok(ResumeAnswer::NotResumable);
        };
        let Some(session) = self.session(number) else {
            return Ok(ResumeAnswer::NotResumable);
        };
        answer_of(self.alloc(), conn, number, session, resume)
    }

    /// Resumes a session on a connection that has none. The connection that it had is removed.
    pub(crate) fn resume(&mut self, conn: u32, number: u32, older: Option<u32>, now: u64)
        requires connected { has_connection conn self.old ≡ true }
        requires free { has_session conn self.old ≡ false }
        requires there { option_map (λ x. attached x.condition) (find (λ x. x.number == number) self.old.sessions) ≡ Some older }
        ensures { self.new ≡ resumed conn now number older self.old }
    {
        match older {
            None => self.attach(conn, number),
            Some(older) => {
                self.detach(older, now);
                self.attach(conn, number);
            }
        }
    }
}
