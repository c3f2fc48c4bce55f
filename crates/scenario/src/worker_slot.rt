//! The four workers, each with how far it has looked at each log.
ghost use Rattle.std.specs.Prelude.{◌≡◌, ℕ, List, [], length, true, Some, IfOk, OnOk, MatchResult};
ghost use Rattle.collections.specs.ById.{find_id, put_all};
ghost use Rattle.guild_model.specs.Record.{own_id};
ghost use Rattle.edit_apply.specs.declared.Edit.{Edit};
ghost use Rattle.dispatch_types.specs.Fold.{contains};
ghost use Rattle.world_law.specs.Model.{Worker as ModelWorker, first_worker};
ghost use Rattle.world_law.specs.Inputs.{Input as ModelInput};
ghost use Rattle.world_law.specs.World.{look_at, first_world};
ghost use Rattle.scenario.specs.Server.{Server, url, first_workers, for_worker, worker_id, lag_of};
ghost use Rattle.scenario.specs.Represents.{log_with, SlotRepresents, SlotsRepresent, SlotSteps, SlotFails, SlotsStep, SlotsFail, HasSlotsOnceStepped, HasSlots, IsFull, cursor_at, calm_of};

use crate::guild_log::GuildLog;
use crate::lagged::Lagged;
use collections::{ById, Keyed, Text};
use session_core::{Bot, copies_of};
use snowflake_id::Snowflake;
use std::alloc::{AllocError, Global};
use worker_core::{Input, Output, StepFault, Worker};

/// The number of entries of a guild's log that a worker was given.
#[derive(Clone, Copy, PartialEq, Eq, Debug)]
pub struct Cursor {
    pub guild: Snowflake,
    pub at: usize,
}

impl Keyed for Cursor {
    ghost key = { λ c. c.guild };

    fn key(&self) -> u64 {
        self.guild.0
    }
}

/// A worker and its cursors.
pub struct WorkerSlot {
    pub worker: Worker,
    pub cursors: ById<Cursor>,
}

impl Drop for WorkerSlot {
    fn drop(self) {
        let WorkerSlot { worker, cursors } = self;
        drop(worker);
        drop(cursors);
    }
}

impl WorkerSlot {
    fn new(
        alloc: Global,
        number: u8,
        bots: &[Bot],
        guilds: &[Snowflake],
    ) -> Result<WorkerSlot, AllocError>
        ensures { IfOk result (λ slot. SlotRepresents (put_all own_id [] guilds.now) number slot (first_worker bots.now guilds.now number (url number))) }
    {
        let url = url_of(alloc, number)?;
        let bots = copies_of(alloc, bots)?;
        Ok(WorkerSlot {
            worker: Worker::new(alloc, number, url, bots, guilds)?,
            cursors: ById::new(alloc),
        })
    }

    fn cursor(&self, guild: Snowflake) -> usize
        ensures { result ≡ cursor_at guild self.now.cursors }
    {
        match self.cursors.get(guild.0) {
            Some(cursor) => cursor.at,
            None => 0,
        }
    }

    // Has the worker look at a guild's log.
    fn look(
        &mut self,
        alloc: Global,
        guild: Snowflake,
        log: &GuildLog,
    ) -> Result<Vec<Output>, StepFault>
        ensures { (guilds : List ℕ) (number : ℕ) (w : ModelWorker) (es : List Edit) → contains guild guilds ≡ true → log.now ≡ log_with guild es → SlotRepresents guilds number self.old w
            → let input = look_at guild es (length (w.logs.seen guild)) in MatchResult result (λ out. SlotSteps guilds number w input self.new out.items) (SlotFails w input) }
    {
        let at = self.cursor(guild);
        let input = log.input_after(alloc, guild, at)?;
        let out = self.worker.step(input)?;
        self.cursors.put(Cursor {
            guild,
            at: at.max(log.count),
        })?;
        Ok(out)
    }

    // The worker's look at a guild's log, if it lags.
    fn lag(&self, number: u8, guild: Snowflake, log: &GuildLog) -> Option<Lagged>
        ensures { (guilds : List ℕ) (w : ModelWorker) (es : List Edit) → log.now ≡ log_with guild es → SlotRepresents guilds number self.now w
            → result ≡ lag_of number guild es (Some w) }
    {
        let base = log.base();
        let cursor = self.cursor(guild);
        if cursor >= base {
            return None;
        }
        Some(Lagged {
            worker: number,
            guild,
            base,
            cursor,
        })
    }

    // Passes the worker any input but a look.
    fn give(&mut self, input: Input) -> Result<Vec<Output>, StepFault>
        ensures { (guilds : List ℕ) (number : ℕ) (w : ModelWorker) (i : ModelInput) → SlotRepresents guilds number self.old w → calm_of input ≡ Some i
            → MatchResult result (λ out. SlotSteps guilds number w i self.new out.items) (SlotFails w i) }
    {
        self.worker.step(input)
    }
}

fn url_of(alloc: Global, number: u8) -> Result<Text, AllocError>
    ensures { IfOk result (λ text. text ≡ url number) }
{
    let url = format!(in alloc; "ws://w{number}.gate.invalid")?;
    Ok(Text::from_string(url))
}

// Four workers of these bots and guilds, before their first input.
fn first_slots(
    alloc: Global,
    bots: &[Bot],
    guilds: &[Snowflake],
) -> Result<Vec<WorkerSlot>, AllocError>
    ensures sit { IfOk result (λ slots. SlotsRepresent (put_all own_id [] guilds.now) 0 slots.items (first_world bots.now guilds.now first_workers).workers) }
    ensures full { IfOk result (λ slots. IsFull slots.items) }
{
    let mut slots = Vec::new(alloc);
    slots.push(WorkerSlot::new(alloc, 0, bots, guilds)?)?;
    slots.push(WorkerSlot::new(alloc, 1, bots, guilds)?)?;
    slots.push(WorkerSlot::new(alloc, 2, bots, guilds)?)?;
    slots.push(WorkerSlot::new(alloc, 3, bots, guilds)?)?;
    Ok(slots)
}

/// Makes the workers, if no step was made yet.
pub fn start(
    alloc: Global,
    slots: &mut Vec<WorkerSlot>,
    bots: &[Bot],
    guilds: &[Snowflake],
) -> Result<(), AllocError>
    ensures { OnOk result ((p : Server) → bots.now ≡ p.bots → guilds.now ≡ p.guilds → HasSlotsOnceStepped slots.old.items p → IsFull slots.new.items × HasSlots slots.new.items p) }
{
    if slots.is_empty() {
        *slots = first_slots(alloc, bots, guilds)?;
    }
    Ok(())
}

/// Has the worker of this number look at a guild's log.
pub fn look(
    alloc: Global,
    slots: &mut Vec<WorkerSlot>,
    number: u8,
    guild: Snowflake,
    log: &GuildLog,
) -> Result<Vec<Output>, StepFault>
    ensures { (guilds : List ℕ) (ws : List ModelWorker) (es : List Edit) → contains guild guilds ≡ true → log.now ≡ log_with guild es → SlotsRepresent guilds 0 slots.old.items ws
        → let given = λ (w : ModelWorker). for_worker number (look_at guild es (length (w.logs.seen guild))) w in
        MatchResult result (λ out. SlotsStep guilds given ws slots.new.items out.items) (SlotsFail given ws) }
{
    let index = number as usize;
    if index >= slots.len() {
        return Ok(Vec::new(alloc));
    }
    slots[index].look(alloc, guild, log)
}

/// The look at a guild's log of the worker of this number, if it lags.
pub fn lag(slots: &[WorkerSlot], number: u8, guild: Snowflake, log: &GuildLog) -> Option<Lagged>
    ensures { (guilds : List ℕ) (ws : List ModelWorker) (es : List Edit) → log.now ≡ log_with guild es → SlotsRepresent guilds 0 slots.now ws
        → result ≡ lag_of number guild es (find_id worker_id number ws) }
{
    let index = number as usize;
    if index >= slots.len() {
        return None;
    }
    let slot = &slots[index];
    slot.lag(number, guild, log)
}

/// Passes an input other than a look to the worker of this number.
pub fn give(
    alloc: Global,
    slots: &mut Vec<WorkerSlot>,
    number: u8,
    input: Input,
) -> Result<Vec<Output>, StepFault>
    ensures { (guilds : List ℕ) (ws : List ModelWorker) (i : ModelInput) → SlotsRepresent guilds 0 slots.old.items ws → calm_of input ≡ Some i
        → MatchResult result (λ out. SlotsStep guilds (for_worker number i) ws slots.new.items out.items) (SlotsFail (for_worker number i) ws) }
{
    let index = number as usize;
    if index >= slots.len() {
        return Ok(Vec::new(alloc));
    }
    slots[index].give(input)
}
