//! What runs count.

use crate::texts::Answer;
use std::alloc::{AllocError, Global};

/// What has happened in runs.
#[derive(Clone, Copy)]
pub struct Counts {
    pub runs: u64,
    /// How many runs have ended right.
    pub right: u64,
    pub edits: u64,
    /// How often the client's connection was cut.
    pub cuts: u64,
    /// How often the worker has closed it.
    pub closes: u64,
    /// How many texts were lost.
    pub lost: u64,
    /// How many resumes the worker has answered with RESUMED.
    pub accepted: u64,
    /// How many it has answered with Invalid Session.
    pub refused: u64,
    /// How many it has answered with close code 4007.
    pub ahead: u64,
    /// How often the client has sent Identify.
    pub identifies: u64,
    /// How many sessions the worker has made.
    pub sessions: u64,
}

fn add(count: &mut u64, more: u64) {
    *count = count.saturating_add(more);
}

impl Counts {
    /// Nothing has happened.
    pub fn none() -> Counts {
        Counts {
            runs: 0,
            right: 0,
            edits: 0,
            cuts: 0,
            closes: 0,
            lost: 0,
            accepted: 0,
            refused: 0,
            ahead: 0,
            identifies: 0,
            sessions: 0,
        }
    }

    /// Something has happened besides.
    pub fn add(&mut self, more: &Counts) {
        add(&mut self.runs, more.runs);
        add(&mut self.right, more.right);
        add(&mut self.edits, more.edits);
        add(&mut self.cuts, more.cuts);
        add(&mut self.closes, more.closes);
        add(&mut self.lost, more.lost);
        add(&mut self.accepted, more.accepted);
        add(&mut self.refused, more.refused);
        add(&mut self.ahead, more.ahead);
        add(&mut self.identifies, more.identifies);
        add(&mut self.sessions, more.sessions);
    }

    /// The worker has answered a resume.
    pub fn add_answer(&mut self, answer: Answer) {
        match answer {
            Answer::Accepted => add(&mut self.accepted, 1),
            Answer::Refused => add(&mut self.refused, 1),
            Answer::Ahead => add(&mut self.ahead, 1),
            Answer::None => {}
        }
    }

    /// The counts in words.
    pub fn told(&self, alloc: Global) -> Result<String, AllocError> {
        format!(in alloc;
            "{} of {} right: {} edits, {} cuts, {} closes, {} texts lost, {} resumes accepted, {} refused, {} ahead, {} identifies, {} sessions",
            self.right,
            self.runs,
            self.edits,
            self.cuts,
            self.closes,
            self.lost,
            self.accepted,
            self.refused,
            self.ahead,
            self.identifies,
            self.sessions
        )
    }
}
