//! The server that a step file drives: bots, guilds, logs and workers.
ghost use Rattle.std.specs.Prelude.{◌≡◌, ℕ, Some, option_map, OnOk, IfOk, MatchResult, []};
ghost use Rattle.edit_text.specs.declared.line.Line.{Line};
ghost use Rattle.world_law.specs.Inputs.{Input as ModelInput};
ghost use Rattle.collections.specs.ById.{find_id};
ghost use Rattle.edit_text.specs.declared.line.Line.TheVariants as line;
ghost use Rattle.scenario.specs.Server.{Server as ModelServer, follow, has_token, refusal, first_server, opened_id};
ghost use Rattle.scenario.specs.Represents.{Represents, Answers, Plays, PlaysNot, Gives, HasSlots, IsFull, calm_of};
ghost use Rattle.scenario.specs.Transcript.{wish_refusal};

use crate::guild_log::GuildLog;
use crate::lagged::Lagged;
use crate::opened::Opened;
use crate::worker_slot;
use crate::worker_slot::{WorkerSlot, start};
use collections::{ById, Seq, Text};
use edit_apply::Edit;
use edit_text::Line;
use guild_model::Verdict;
use indexmap::IndexMap;
use session_core::Bot;
use snowflake_id::Snowflake;
use std::alloc::{AllocError, Global};
use worker_core::{Input, Output, StepFault};

/// The bots and guilds of the head lines, the logs, the connection numbers that were used, and the
/// workers, which exist from the first step on.
pub struct Server {
    alloc: Global,
    bots: Seq<Bot>,
    guilds: Seq<Snowflake>,
    logs: IndexMap<u64, GuildLog>,
    used: ById<Opened>,
    slots: Vec<WorkerSlot>,
}

impl Drop for Server {
    fn drop(self) {
        let Server {
            alloc: _,
            bots,
            guilds,
            logs,
            used,
            slots,
        } = self;
        drop(bots);
        drop(guilds);
        drop(logs);
        drop(used);
        drop(slots);
    }
}

/// The result of a line: why its edit is refused, if it is, the look, if it lags, and what the worker sends.
pub struct Answer {
    pub refusal: Option<Verdict>,
    pub lagged: Option<Lagged>,
    pub outputs: Vec<Output>,
}

impl Drop for Answer {
    fn drop(self) {
        let Answer {
            refusal,
            lagged,
            outputs,
        } = self;
        drop(refusal);
        drop(lagged);
        drop(outputs);
    }
}

impl Answer {
    // What a worker sends.
    fn sends(outputs: Vec<Output>) -> Answer
        ensures refusal { result.refusal ≡ None }
        ensures lagged { result.lagged ≡ None }
        ensures outputs { result.outputs ≡ outputs }
    {
        Answer {
            refusal: None,
            lagged: None,
            outputs,
        }
    }
}

fn knows(bots: &[Bot], token: &str) -> bool
    ensures { result ≡ has_token token.now bots.now }
{
    bots.iter().any(|bot| bot.token.is(token))
}

impl Server {
    /// Before the first line.
    pub fn new(alloc: Global) -> Server
        ensures { Represents result first_server }
    {
        Server {
            alloc,
            bots: Seq::new(alloc),
            guilds: Seq::new(alloc),
            logs: IndexMap::new(alloc),
            used: ById::new(alloc),
            slots: Vec::new(alloc),
        }
    }

    fn add_bot(&mut self, bot: Bot) -> Result<(), AllocError>
        ensures { OnOk result ((p : ModelServer) (v : ℕ) → Represents self.old p → Plays p (line.Bot bot.token bot.user bot.name bot.privileged v bot.ring_items bot.ring_bytes) self.new []) }
    {
        if !self.slots.is_empty() || knows(self.bots.as_slice(), bot.token.as_str()) {
            return Ok(());
        }
        self.bots.push(bot)
    }

    fn add_guild(&mut self, id: Snowflake) -> Result<(), AllocError>
        ensures { OnOk result ((p : ModelServer) → Represents self.old p → Plays p (line.Guild id) self.new []) }
    {
        if !self.slots.is_empty() || self.logs.contains_key(&id.0) {
            return Ok(());
        }
        drop(self.logs.insert(id.0, GuildLog::new(self.alloc, id))?);
        self.guilds.push(id)
    }

    // Makes the workers, if no step was made yet.
    fn start(&mut self) -> Result<(), AllocError>
        ensures starts { OnOk result ((p : ModelServer) → Represents self.old p → IsFull self.new.slots.items × HasSlots self.new.slots.items p) }
        ensures slots { self.new ≡ record self.old { slots = self.new.slots } }
    {
        start(
            self.alloc,
            &mut self.slots,
            self.bots.as_slice(),
            self.guilds.as_slice(),
        )
    }

    // Adds an edit to the guild's log, and says why it is refused, if it is. An edit of a guild without a
    // head line is not added.
    fn edit(&mut self, guild: Snowflake, edit: Edit) -> Result<Option<Verdict>, AllocError>
        ensures answer { IfOk result (λ answer. (p : ModelServer) → Represents self.old p → answer ≡ refusal p guild edit) }
        ensures plays { OnOk result ((p : ModelServer) → Represents self.old p → Plays p (line.Edit guild edit) self.new []) }
    {
        let Some(log) = self.logs.get_mut(&guild.0) else {
            drop(edit);
            return Ok(Some(Verdict::NotOpen));
        };
        let (bots, guilds) = (self.bots.as_slice(), self.guilds.as_slice());
        let Ok(()) = start(self.alloc, &mut self.slots, bots, guilds) else {
            drop(edit);
            return Err(AllocError);
        };
        log.add(self.alloc, edit)
    }

    /// Adds a wish to the log of its guild at once, and says why it is refused, if it is.
    pub fn follow(&mut self, output: &Output) -> Result<Option<Verdict>, AllocError>
        ensures answer { IfOk result (λ answer. (p : ModelServer) → Represents self.old p → answer ≡ wish_refusal p output.now) }
        ensures follows { OnOk result ((p : ModelServer) → Represents self.old p → Represents self.new (follow p output.now)) }
    {
        match output {
            Output::Wish(guild, wished) => {
                let edit = wished.edit().copy(self.alloc)?;
                self.edit(*guild, edit)
            }
            Output::Send(..) | Output::Close(..) => Ok(None),
        }
    }

    fn look(&mut self, worker: u8, guild: Snowflake) -> Result<Answer, StepFault>
        ensures { (p : ModelServer) → Represents self.old p → MatchResult result (λ a. Answers p (line.Look worker guild) self.new a) (PlaysNot p (line.Look worker guild)) }
    {
        if !self.logs.contains_key(&guild.0) {
            return Ok(Answer::sends(Vec::new(self.alloc)));
        }
        self.start()?;
        let Some(log) = self.logs.get(&guild.0) else {
            return Ok(Answer::sends(Vec::new(self.alloc)));
        };
        let lagged = worker_slot::lag(self.slots.as_slice(), worker, guild, log);
        let outputs = worker_slot::look(self.alloc, &mut self.slots, worker, guild, log)?;
        Ok(Answer {
            refusal: None,
            lagged,
            outputs,
        })
    }

    fn open(&mut self, worker: u8, conn: u32) -> Result<Vec<Output>, StepFault>
        ensures { (p : ModelServer) → Represents self.old p → MatchResult result (λ out. Plays p (line.Open worker conn) self.new out.items) (PlaysNot p (line.Open worker conn)) }
    {
        if self.used.contains(conn as u64) {
            return Ok(Vec::new(self.alloc));
        }
        self.start()?;
        self.used.insert(Opened {
            number: conn,
            worker,
        })?;
        worker_slot::give(self.alloc, &mut self.slots, worker, Input::Open(conn))
    }

    // Passes a worker any input but a look.
    fn give(&mut self, worker: u8, input: Input) -> Result<Vec<Output>, StepFault>
        ensures { (p : ModelServer) (line : Line) (i : ModelInput) → Represents self.old p → calm_of input ≡ Some i → Gives p line worker i
            → MatchResult result (λ out. Plays p line self.new out.items) (PlaysNot p line) }
    {
        self.start()?;
        worker_slot::give(self.alloc, &mut self.slots, worker, input)
    }

    // The worker on which a connection was opened.
    fn worker_of(&self, conn: u32) -> Option<u8>
        ensures { result ≡ option_map (λ o. o.worker) (find_id opened_id conn self.now.used) }
    {
        let opened = self.used.get(conn as u64)?;
        Some(opened.worker)
    }

    fn frame(&mut self, conn: u32, text: Text) -> Result<Vec<Output>, StepFault>
        ensures { (p : ModelServer) → Represents self.old p → MatchResult result (λ out. Plays p (line.Frame conn text) self.new out.items) (PlaysNot p (line.Frame conn text)) }
    {
        let Some(worker) = self.worker_of(conn) else {
            return Ok(Vec::new(self.alloc));
        };
        self.give(worker, Input::Frame(conn, text))
    }

    fn lost(&mut self, conn: u32) -> Result<Vec<Output>, StepFault>
        ensures { (p : ModelServer) → Represents self.old p → MatchResult result (λ out. Plays p (line.Lost conn) self.new out.items) (PlaysNot p (line.Lost conn)) }
    {
        let Some(worker) = self.worker_of(conn) else {
            return Ok(Vec::new(self.alloc));
        };
        self.give(worker, Input::Lost(conn))
    }

    fn closed(&mut self, conn: u32, code: u16) -> Result<Vec<Output>, StepFault>
        ensures { (p : ModelServer) → Represents self.old p → MatchResult result (λ out. Plays p (line.Closed conn code) self.new out.items) (PlaysNot p (line.Closed conn code)) }
    {
        let Some(worker) = self.worker_of(conn) else {
            return Ok(Vec::new(self.alloc));
        };
        self.give(worker, Input::Closed(conn, code))
    }

    fn tick(&mut self, worker: u8, now: u64) -> Result<Vec<Output>, StepFault>
        ensures { (p : ModelServer) → Represents self.old p → MatchResult result (λ out. Plays p (line.Tick worker now) self.new out.items) (PlaysNot p (line.Tick worker now)) }
    {
        self.give(worker, Input::Tick(now))
    }

    /// Runs a line that was read.
    pub fn play(&mut self, line: Line) -> Result<Answer, StepFault>
        ensures { (p : ModelServer) → Represents self.old p → MatchResult result (λ a. Answers p line self.new a) (PlaysNot p line) }
    {
        match line {
            Line::Bot {
                token,
                user,
                name,
                privileged,
                v: _,
                ring_items,
                ring_bytes,
            } => {
                self.add_bot(Bot {
                    token,
                    user,
                    name,
                    privileged,
                    ring_items,
                    ring_bytes,
                })?;
                Ok(Answer::sends(Vec::new(self.alloc)))
            }
            Line::Guild { id } => {
                self.add_guild(id)?;
                Ok(Answer::sends(Vec::new(self.alloc)))
            }
            Line::Edit { guild, edit } => Ok(Answer {
                refusal: self.edit(guild, edit)?,
                lagged: None,
                outputs: Vec::new(self.alloc),
            }),
            Line::Look { worker, guild } => self.look(worker, guild),
            Line::Open { worker, conn } => Ok(Answer::sends(self.open(worker, conn)?)),
            Line::Frame { conn, text } => Ok(Answer::sends(self.frame(conn, text)?)),
            Line::Lost { conn } => Ok(Answer::sends(self.lost(conn)?)),
            Line::Closed { conn, code } => Ok(Answer::sends(self.closed(conn, code)?)),
            Line::Tick { worker, now } => Ok(Answer::sends(self.tick(worker, now)?)),
        }
    }
}
