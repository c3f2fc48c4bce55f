//! A worker: its state and its step.

ghost use Rattle.std.specs.Prelude.{◌≡◌, ◌+◌, ◌-◌, ◌^◌, ℕ, List, [], ◌∷◌, false, true, max, min, map, flat_map, position, option_map, length, Some, None, Err, IfOk, OnOk, OnErr, MatchResult, IsSome};
ghost use Rattle.std.specs.List.{list_all};
ghost use Rattle.std.specs.Option.{option_map_or, option_copied};
ghost use Rattle.collections.specs.ById.{IsById, find_id, has_id, put_id};
ghost use Rattle.guild_model.specs.Record.{closed};
ghost use Rattle.edit_apply.specs.Edits.{state, state_from};
ghost use Rattle.edit_apply.specs.declared.Edit.{Edit as ModelEdit};
ghost use Rattle.session_core.specs.State.{live, open_replies, AreNumberedOnce};
ghost use Rattle.session_core.specs.Holders.{viewer_for};
ghost use Rattle.session_core.specs.Resume.{session_id};
ghost use Rattle.session_core.specs.Ends.{tick_replies, end_all_replies, all_ended};
ghost use Rattle.session_core.specs.declared.reply.Reply.{Reply as ModelReply};
ghost use Rattle.session_core.specs.Frames.{Members, Presence, Voice, move_replies, is_spent};
ghost use Rattle.session_core.specs.declared.fault.SessionFault.TheVariants as SessionFault;
ghost use Rattle.world_law.specs.Keeping.{record_at, with_sessions};
ghost use Rattle.world_law.specs.Outputs.{Says};
ghost use Rattle.world_law.specs.Greeting.{ready as ready_of};
ghost use Rattle.world_law.specs.Wants.{answered_by, is_numbered, numbered};
ghost use Rattle.world_law.specs.Frames.{move_at};
ghost use Rattle.world_law.specs.Inputs.{Input as ModelInput, Look, Rebase, Open, Frame, Lost, Closed, Tick};
ghost use Rattle.world_law.specs.Model.{Worker as ModelWorker, first_worker};
ghost use Rattle.world_law.specs.Spent.{is_past};
ghost use Rattle.worker_core.specs.InCode.{replica_id, replica_of, bare, in_code, kept_after, after_frame};
ghost use Rattle.worker_core.specs.Outputs.{IsGiven, written, all_written};
ghost use Rattle.worker_core.specs.Represents.{Represents, StepsTo, Fails, Takes, TakesNot, TakesCounted, TakesWhole, FaultBy, may_end, with_ended};
ghost use Rattle.worker_core.specs.Made.{all_dispatches, live_dispatches};
ghost use Rattle.worker_core.specs.Masks.{Lends, has_kept_session, keep_masks};
ghost use Rattle.worker_core.specs.Looked.{kept_looked, kept_sends, kept_spends};
ghost use Rattle.worker_core.specs.Recipients.{viewer_of};
ghost use Rattle.worker_core.specs.Telling.{TellsAt, FailsAt};
ghost use Rattle.worker_core.specs.Replies.{Greets, GreetsNot, Replies, RepliesNot, greeted, Gives, GivesNot, is_plain, plain};

use crate::io::{Input, Output, StepFault, put};
use crate::keeping::{has_session, keep_each};
use crate::look::{apply_each, look};
use crate::made::{Made, counted_more, live_dispatches};
use crate::ready::{guild_creates, ready_guilds};
use crate::recipients::Recipients;
use crate::tell::tell;
use crate::wish::{wish_presence, wish_voice};
use collections::{ById, Text};
use dispatch_types::{Dispatch, Ready, Viewer};
use gateway_frames::{Ask, Out, VoiceAsk};
use guild_model::{Guild, Status, User};
use guild_replica::Replica;
use log_entry::Entry;
use mask_cache::Masks;
use member_chunks::answer;
use payload_text::Payload;
use session_core::{Bot, Holder, Mark, Reply, SessionFault, Sessions, Spent};
use snowflake_id::Snowflake;
use std::alloc::{AllocError, Global};
use std::marker::Model;

/// A worker, which follows the logs of guilds and serves sessions (Gateway, Connection Lifecycle).
pub struct Worker {
    alloc: Global,
    finished: Option<StepFault>,
    url: Text,
    clock: u64,
    /// How many chunks of members were made.
    chunks: u64,
    /// How many dispatches the sessions had that have ended, or 2^64 - 1 if there were more.
    past: u64,
    replicas: ById<Replica>,
    sessions: Sessions,
    /// The viewers of the sessions, as of the last look.
    recipients: Recipients,
    /// Whether they are known to be those of the sessions as they are now.
    knows_recipients: bool,
}

// One call drops it, so that no crate above proves the drop of each of its parts again.
impl Drop for Worker {
    fn drop(self) {
        let Worker {
            alloc: _,
            finished: _,
            url,
            clock: _,
            chunks: _,
            past: _,
            replicas,
            sessions,
            recipients,
            knows_recipients: _,
        } = self;
        drop(url);
        drop(replicas);
        drop(sessions);
        drop(recipients);
    }
}

impl Model for Worker {
    ghost use Rattle.std.specs.Prelude.{map};
    ghost use Rattle.worker_core.specs.InCode.{KeptWorker, bare};
    ghost use Rattle.worker_core.specs.Recipients.{AreKnown};

    ghost Value = { KeptWorker };

    ghost view = { λ w. record { finished = w.finished; past = w.past; copies = w.replicas; machine = record { url = w.url; now = w.clock; chunks = w.chunks; logs = map bare w.replicas; core = w.sessions } } };

    ghost invariant = { λ w. AreKnown w.knows_recipients w.recipients.viewers.items w.recipients.whose.items w.sessions.sessions };
}

impl Worker {
    /// A worker of these bots and guilds, each guild with an empty log, to whose sessions READY names
    /// this URL. Of a token or a guild that comes twice the first counts.
    pub fn new(
        alloc: Global,
        number: u8,
        url: Text,
        bots: Vec<Bot>,
        guilds: &[Snowflake],
    ) -> Result<Worker, AllocError>
        ensures { IfOk result (λ worker. Represents worker (first_worker bots.items guilds.now number url)) }
    {
        let mut replicas = ById::new(alloc);
        for id in guilds {
            replicas.put(Replica::new(alloc, Guild::closed(alloc, *id)))?;
        }
        Ok(Worker {
            alloc,
            finished: None,
            url,
            clock: 0,
            chunks: 0,
            past: 0,
            replicas,
            sessions: Sessions::new(alloc, number, bots),
            recipients: Recipients::none(alloc),
            knows_recipients: false,
        })
    }

    /// Handles an input, and gives its outputs in order. The entries of a look are those of the guild's log
    /// that follow the ones that this worker has been given. It does nothing for a guild that is not the
    /// worker's.
    ///
    /// `Spent` exactly if there is memory and a count of sessions, of chunks or of a session's
    /// dispatches would pass its last value. After an `Err` the worker is finished: each later step answers the same.
    pub fn step(&mut self, input: Input) -> Result<Vec<Output>, StepFault>
        ensures steps { (w : ModelWorker) (i : ModelInput) → Represents self.old w → IsGiven input i → MatchResult result (λ out. StepsTo w i self.new out.items) (Fails w i) }
        ensures ended { (fault : StepFault) → result ≡ Err fault → self.new.finished ≡ Some fault }
        ensures stays { (fault : StepFault) → self.old.finished ≡ Some fault → result ≡ Err fault }
    {
        if let Some(fault) = self.finished {
            return Err(fault);
        }
        let given = self.take_whole(input);
        if let Err(fault) = &given {
            self.finished = Some(*fault);
        }
        given
    }

    /// The masks of a user in a guild, by the worker's record of it (Permissions, Permission Overwrites). `None`
    /// exactly if no live session of the user is served the guild. Does not allocate.
    pub fn masks(&self, guild: Snowflake, user: Snowflake) -> Option<&Masks>
        ensures { (w : ModelWorker) → Represents self.now w → Lends w guild user (option_copied result) }
    {
        let Some(replica) = self.replica(guild) else {
            return None;
        };
        if !self.has_session(user, replica.guild()) {
            return None;
        }
        replica.masks(user)
    }

    // Whether a session of a user is served a guild.
    fn has_session(&self, user: Snowflake, guild: &Guild) -> bool
        ensures { result ≡ has_kept_session self.now.machine.core.sessions user guild.now }
    {
        has_session(&self.sessions, user, guild)
    }

    /// The numbers of sessions and of dispatches that the worker has made. Does not allocate.
    pub fn made(&self) -> Made
        ensures sessions { (w : ModelWorker) → Represents self.now w → result.sessions ≡ w.core.made }
        ensures dispatches { (w : ModelWorker) → Represents self.now w → result.dispatches ≡ min (all_dispatches w.core.sessions) (2 ^ 64 - 1) }
    {
        let sessions = u64::from(self.sessions_made());
        let dispatches = self.dispatches_made();
        Made {
            sessions,
            dispatches,
        }
    }

    fn sessions_made(&self) -> u32
        ensures { result ≡ self.now.machine.core.made }
    {
        self.sessions.made()
    }

    fn dispatches_made(&self) -> u64
        ensures { result ≡ min (self.now.past + live_dispatches self.now.machine.core.sessions) (2 ^ 64 - 1) }
    {
        counted_more(self.past, live_dispatches(&self.sessions))
    }

    fn live_dispatches(&self) -> u128
        ensures { result ≡ live_dispatches self.now.machine.core.sessions }
    {
        live_dispatches(&self.sessions)
    }

    /// Counts the dispatches of the sessions that have ended, by how many the live ones had before.
    fn count_ended(&mut self, before: u128)
        ensures { self.new ≡ with_ended before self.old }
    {
        let ended = before.saturating_sub(live_dispatches(&self.sessions));
        self.past = counted_more(self.past, ended);
    }

    /// Handles an input, and keeps the masks of each user who has a session then.
    fn take_whole(&mut self, input: Input) -> Result<Vec<Output>, StepFault>
        ensures { (i : ModelInput) → IsGiven input i → MatchResult result (λ out. TakesWhole self.old i self.new out.items) (TakesNot self.old i) }
    {
        let out = self.take_counted(input)?;
        self.keep_masks()?;
        Ok(out)
    }

    // Keeps the masks of each user who has a session, in each guild. Most often they are kept.
    fn keep_masks(&mut self) -> Result<(), AllocError>
        ensures same { OnOk result (self.new ≡ record self.old { copies = self.new.copies }) }
        ensures kept { OnOk result (keep_masks self.new.copies self.old.machine.core.sessions ≡ true) }
    {
        let known = self.knows_recipients;
        self.knows_recipients = false;
        self.recipients.update(known, self.alloc, &self.sessions)?;
        self.knows_recipients = true;
        keep_each(
            self.alloc,
            &mut self.replicas,
            self.recipients.users.as_slice(),
        )
    }

    /// Handles an input, and counts the dispatches of the sessions that end by it.
    fn take_counted(&mut self, input: Input) -> Result<Vec<Output>, StepFault>
        ensures { (i : ModelInput) → IsGiven input i → MatchResult result (λ out. TakesCounted self.old i self.new out.items) (TakesNot self.old i) }
    {
        if !input.may_end_sessions() {
            return self.take(input);
        }
        self.take_ending(input)
    }

    /// The same of an input by which sessions may end.
    fn take_ending(&mut self, input: Input) -> Result<Vec<Output>, StepFault>
        ensures { (i : ModelInput) → IsGiven input i → may_end i ≡ true
            → MatchResult result (λ out. TakesCounted self.old i self.new out.items) (TakesNot self.old i) }
    {
        let before = self.live_dispatches();
        let given = self.take(input);
        self.count_ended(before);
        given
    }

    fn take(&mut self, input: Input) -> Result<Vec<Output>, StepFault>
        ensures { (i : ModelInput) → IsGiven input i → MatchResult result (λ out. Takes self.old i self.new out.items) (TakesNot self.old i) }
    {
        match input {
            Input::Look(guild, entries) => self.look(guild, entries.as_slice()),
            Input::Rebase(guild, _, basis, entries) => {
                self.rebase(guild, basis, entries.as_slice())
            }
            Input::Open(conn) => self.open(conn),
            Input::Frame(conn, text) => self.frame(conn, text.as_str()),
            Input::Lost(conn) => self.lost(conn),
            Input::Closed(conn, code) => self.closed(conn, code),
            Input::Tick(now) => self.tick(now),
        }
    }

    fn look(&mut self, guild: Snowflake, entries: &[Entry]) -> Result<Vec<Output>, StepFault>
        ensures { MatchResult result (λ out. Takes self.old (Look guild entries.now) self.new out.items) (TakesNot self.old (Look guild entries.now)) }
    {
        let Some(mut replica) = self.take_replica(guild) else {
            return Ok(Vec::new(self.alloc));
        };
        let out = self.follow(&mut replica, entries)?;
        self.put_replica(replica);
        Ok(out)
    }

    /// Takes the replica of a guild out of the worker, which has an empty one instead.
    fn take_replica(&mut self, guild: Snowflake) -> Option<Replica>
        ensures found { option_map bare result ≡ find_id replica_id guild self.old.machine.logs }
        ensures none { result ≡ None → self.new ≡ self.old }
        ensures taken { (r : Replica) → result ≡ Some r
            → self.new ≡ record self.old { copies = self.new.copies; machine = record self.old.machine { logs = put_id replica_id (replica_of (closed guild)) self.old.machine.logs } } }
        ensures ascend { IsById replica_id self.old.machine.logs }
    {
        if !self.has_replica(guild) {
            return None;
        }
        let empty = Replica::new(self.alloc, Guild::closed(self.alloc, guild));
        Some(self.replicas.exchange(empty))
    }

    /// Whether the worker has a guild.
    fn has_replica(&self, guild: Snowflake) -> bool
        ensures found { result ≡ has_id replica_id guild self.now.machine.logs }
        ensures ascend { IsById replica_id self.now.machine.logs }
    {
        // Brings the list's invariant into the proof.
        let _replicas = self.replicas.as_slice();
        self.replicas.contains(guild.0)
    }

    fn put_replica(&mut self, replica: Replica)
        requires { IsSome (find_id replica_id (replica_id replica) self.old.machine.logs) }
        ensures { self.new ≡ record self.old { copies = self.new.copies; machine = record self.old.machine { logs = put_id replica_id (bare replica) self.old.machine.logs } } }
    {
        self.replicas.replace(replica);
    }

    /// For how many outputs of a look room is made: for none if it finds nothing, so that it does not
    /// allocate.
    fn room_for(&self, entries: &[Entry]) -> usize
        ensures live { length (live self.now.machine.core) ≡ length self.now.machine.core.sessions }
    {
        let sessions = self.sessions.len();
        if entries.is_empty() { 0 } else { sessions }
    }

    /// Handles the entries of a guild, for its record and for each session.
    fn follow(&mut self, replica: &mut Replica, entries: &[Entry]) -> Result<Vec<Output>, StepFault>
        ensures guild { OnOk result (replica.new.guild ≡ state_from replica.old.guild entries.now) }
        ensures core { OnOk result (self.new ≡ record self.old { machine = record self.old.machine { core = with_sessions (kept_looked replica.old.guild entries.now self.old.machine.core.sessions) self.old.machine.core } }) }
        ensures out { IfOk result (λ out. out.items ≡ all_written (kept_sends replica.old.guild entries.now self.old.machine.core.sessions)) }
        ensures spent { MatchResult result (λ _. kept_spends replica.old.guild entries.now self.old.machine.core.sessions ≡ false) (FaultBy (kept_spends replica.old.guild entries.now self.old.machine.core.sessions)) }
        ensures live { length (live self.old.machine.core) ≡ length self.old.machine.core.sessions }
    {
        let mut out = Vec::with_capacity(self.alloc, self.room_for(entries))?;
        let known = self.knows_recipients;
        self.knows_recipients = false;
        self.recipients.update(known, self.alloc, &self.sessions)?;
        replica.keep_masks(self.alloc, self.recipients.users.as_slice())?;
        look(
            self.alloc,
            replica,
            entries,
            &self.recipients,
            &mut self.sessions,
            &mut out,
        )?;
        self.knows_recipients = true;
        Ok(out)
    }

    /// Takes over a log of which too much was missed: the record after its first entries, and those that follow
    /// them. All sessions end, and each connection that has one is closed.
    fn rebase(
        &mut self,
        guild: Snowflake,
        basis: Guild,
        entries: &[Entry],
    ) -> Result<Vec<Output>, StepFault>
        ensures { (log : List ModelEdit) → state_from basis entries.now ≡ state guild log
            → MatchResult result (λ out. Takes self.old (Rebase guild log) self.new out.items) (TakesNot self.old (Rebase guild log)) }
    {
        if !self.has_replica(guild) {
            return Ok(Vec::new(self.alloc));
        }
        self.replace_record(basis, entries)?;
        let replies = self.end_sessions()?;
        self.reply_each(replies)
    }

    /// Replaces the record of a guild by this one with entries more.
    fn replace_record(&mut self, basis: Guild, entries: &[Entry]) -> Result<(), AllocError>
        ensures { OnOk result (self.new ≡ record self.old { copies = self.new.copies; machine = record self.old.machine { logs = put_id replica_id (replica_of (state_from basis entries.now)) self.old.machine.logs } }) }
    {
        let mut guild = basis;
        apply_each(self.alloc, &mut guild, entries)?;
        self.replicas.put(Replica::new(self.alloc, guild))?;
        Ok(())
    }

    fn end_sessions(&mut self) -> Result<Vec<Reply>, AllocError>
        ensures replies { IfOk result (λ replies. replies.items ≡ end_all_replies self.old.machine.core) }
        ensures ended { OnOk result (self.new ≡ record self.old { machine = record self.old.machine { core = all_ended (λ x. []) self.old.machine.core } }) }
    {
        self.knows_recipients = false;
        self.sessions.end_all()
    }

    fn open(&mut self, conn: u32) -> Result<Vec<Output>, StepFault>
        ensures { MatchResult result (λ out. Takes self.old (Open conn) self.new out.items) (TakesNot self.old (Open conn)) }
    {
        let replies = self.open_session(conn)?;
        self.reply_each(replies)
    }

    fn open_session(&mut self, conn: u32) -> Result<Vec<Reply>, AllocError>
        ensures replies { IfOk result (λ replies. replies.items ≡ open_replies conn self.old.machine.core) }
        ensures opened { OnOk result (self.new ≡ kept_after self.old (Open conn)) }
    {
        self.knows_recipients = false;
        self.sessions.open(conn, self.clock)
    }

    fn frame(&mut self, conn: u32, text: &str) -> Result<Vec<Output>, StepFault>
        ensures { MatchResult result (λ out. Takes self.old (Frame conn text.now) self.new out.items) (TakesNot self.old (Frame conn text.now)) }
    {
        let replies = self.frame_session(conn, text)?;
        self.reply_each(replies)
    }

    fn frame_session(&mut self, conn: u32, text: &str) -> Result<Vec<Reply>, SessionFault>
        ensures replies { IfOk result (λ replies. replies.items ≡ move_replies conn (move_at in_code self.old.machine conn text.now) self.old.machine.core) }
        ensures moved { OnOk result (self.new ≡ after_frame self.old conn (move_at in_code self.old.machine conn text.now)) }
        ensures counted { OnOk result (is_spent (move_at in_code self.old.machine conn text.now) self.old.machine.core ≡ false) }
        ensures spent { result ≡ Err SessionFault.Spent → is_spent (move_at in_code self.old.machine conn text.now) self.old.machine.core ≡ true }
    {
        self.knows_recipients = false;
        self.sessions.frame(conn, text, self.clock)
    }

    fn lost(&mut self, conn: u32) -> Result<Vec<Output>, StepFault>
        ensures { MatchResult result (λ out. Takes self.old (Lost conn) self.new out.items) (TakesNot self.old (Lost conn)) }
    {
        self.lose_session(conn);
        Ok(Vec::new(self.alloc))
    }

    fn lose_session(&mut self, conn: u32)
        ensures { self.new ≡ kept_after self.old (Lost conn) }
    {
        self.knows_recipients = false;
        self.sessions.lost(conn, self.clock);
    }

    fn closed(&mut self, conn: u32, code: u16) -> Result<Vec<Output>, StepFault>
        ensures { MatchResult result (λ out. Takes self.old (Closed conn code) self.new out.items) (TakesNot self.old (Closed conn code)) }
    {
        self.close_session(conn, code);
        Ok(Vec::new(self.alloc))
    }

    fn close_session(&mut self, conn: u32, code: u16)
        ensures { self.new ≡ kept_after self.old (Closed conn code) }
    {
        self.knows_recipients = false;
        self.sessions.closed(conn, code, self.clock);
    }

    fn tick(&mut self, now: u64) -> Result<Vec<Output>, StepFault>
        ensures { MatchResult result (λ out. Takes self.old (Tick now) self.new out.items) (TakesNot self.old (Tick now)) }
    {
        let replies = self.tick_sessions(now)?;
        self.reply_each(replies)
    }

    fn tick_sessions(&mut self, now: u64) -> Result<Vec<Reply>, AllocError>
        ensures replies { IfOk result (λ replies. replies.items ≡ tick_replies (max self.old.machine.now now) self.old.machine.core) }
        ensures ticked { OnOk result (self.new ≡ kept_after self.old (Tick now)) }
    {
        let known = self.knows_recipients;
        let before = self.sessions.len();
        self.knows_recipients = false;
        self.clock = self.clock.max(now);
        let replies = self.sessions.tick(self.clock)?;
        // Time ends sessions, and changes no viewer of the others.
        self.knows_recipients = known && self.sessions.len() == before;
        Ok(replies)
    }

    /// The outputs for the replies of a call, in order.
    fn reply_each(&mut self, replies: Vec<Reply>) -> Result<Vec<Output>, StepFault>
        ensures plain { list_all is_plain replies.items ≡ true → MatchResult result (λ out. (self.new ≡ self.old) × (out.items ≡ all_written (flat_map plain replies.items))) (FaultBy false) }
        ensures one { (r : ModelReply) → replies.items ≡ r ∷ [] → MatchResult result (λ out. Replies r self.old self.new [] out.items) (RepliesNot r self.old) }
    {
        let mut out = Vec::new(self.alloc);
        for reply in replies {
            self.reply(reply, &mut out)?;
        }
        Ok(out)
    }

    fn reply(&mut self, reply: Reply, out: &mut Vec<Output>) -> Result<(), StepFault>
        ensures { MatchResult result (λ _. Replies reply self.old self.new out.old.items out.new.items) (RepliesNot reply self.old) }
    {
        match reply {
            Reply::Send(conn, payload) => put(out, said(self.alloc, conn, payload)?)?,
            Reply::Text(conn, text) => put(out, Output::Send(conn, text))?,
            Reply::Close(conn, code) => put(out, Output::Close(conn, code))?,
            Reply::Begin(session) => self.send_ready(session, out)?,
            Reply::Ask(session, ask) => self.answer(session, &ask, out)?,
            Reply::Presence(session, status) => self.wish_presence(session, status, out)?,
            Reply::Voice(session, ask) => self.wish_voice(session, &ask, out)?,
        }
        Ok(())
    }

    /// Sends READY and the guilds to a session that begins.
    fn send_ready(&mut self, session: u32, out: &mut Vec<Output>) -> Result<(), StepFault>
        ensures { MatchResult result (λ _. Greets self.old session self.new out.old.items out.new.items) (GreetsNot self.old session) }
    {
        let first = self.first_dispatches(session)?;
        self.tell(session, Mark::Start, first.as_slice(), out)
    }

    /// READY and the guilds of a session; nothing if it is not live.
    fn first_dispatches(&self, session: u32) -> Result<Vec<Dispatch>, AllocError>
        ensures list { IfOk result (λ list. option_map_or (greeted self.now.machine session) (numbered session self.now.machine.core.sessions) [] ≡ list.items) }
        ensures once { OnOk result (AreNumberedOnce self.now.machine.core) }
    {
        let mut list = Vec::new(self.alloc);
        let Some(holder) = self.sessions.holder(session) else {
            return Ok(list);
        };
        let viewer = holder.viewer();
        list.push(Dispatch::Ready(self.ready(holder)?))?;
        guild_creates(self.alloc, self.replicas.as_slice(), &viewer, &mut list)?;
        Ok(list)
    }

    /// READY, for the holder of a session.
    fn ready(&self, holder: &Holder) -> Result<Ready, AllocError>
        ensures { IfOk result (λ ready. (n : ℕ) → holder.now.id ≡ session_id self.now.machine.core.worker n
            → ready ≡ ready_of in_code self.now.machine (viewer_for holder.now) holder.now.name n) }
    {
        let viewer = holder.viewer();
        let name = holder.name.copy(self.alloc)?;
        let session = holder.id.copy(self.alloc)?;
        let url = self.url.copy(self.alloc)?;
        let guilds = ready_guilds(self.alloc, self.replicas.as_slice(), &viewer)?;
        Ok(Ready {
            user: User {
                id: holder.user,
                name,
                bot: true,
            },
            guilds,
            session,
            url,
            shard: holder.shard,
        })
    }
}

impl Worker {
    /// The viewer of a session. `None` exactly if it is not live.
    fn viewer_of(&self, session: u32) -> Option<Viewer>
        ensures { result ≡ option_map viewer_of (numbered session self.now.machine.core.sessions) }
    {
        let Some(holder) = self.sessions.holder(session) else {
            return None;
        };
        Some(holder.viewer())
    }

    fn replicas(&self) -> &[Replica]
        ensures { map bare result.now ≡ self.now.machine.logs }
    {
        self.replicas.as_slice()
    }

    fn replica(&self, guild: Snowflake) -> Option<&Replica>
        ensures copied { option_copied result ≡ find_id replica_id guild self.now.copies }
        ensures found { option_map bare (option_copied result) ≡ find_id replica_id guild self.now.machine.logs }
    {
        self.replicas.get(guild.0)
    }

    /// Handles Update Presence (op 3) of a session's client.
    fn wish_presence(
        &self,
        session: u32,
        status: Status,
        out: &mut Vec<Output>,
    ) -> Result<(), AllocError>
        ensures { OnOk result (Gives self.now session (Presence status) self.now out.old.items out.new.items) }
    {
        match self.viewer_of(session) {
            Some(viewer) => wish_presence(self.alloc, self.replicas(), &viewer, status, out),
            None => Ok(()),
        }
    }

    /// Handles Update Voice State (op 4) of a session's client.
    fn wish_voice(
        &self,
        session: u32,
        ask: &VoiceAsk,
        out: &mut Vec<Output>,
    ) -> Result<(), AllocError>
        ensures { OnOk result (Gives self.now session (Voice ask.now) self.now out.old.items out.new.items) }
    {
        match (self.viewer_of(session), self.replica(ask.guild)) {
            (Some(viewer), Some(replica)) => wish_voice(self.alloc, replica, &viewer, ask, out),
            _ => Ok(()),
        }
    }

    /// Answers Request Guild Members (op 8) of a session's client.
    fn answer(&mut self, session: u32, ask: &Ask, out: &mut Vec<Output>) -> Result<(), StepFault>
        ensures { MatchResult result (λ _. Gives self.old session (Members ask.now) self.new out.old.items out.new.items) (GivesNot self.old session (Members ask.now)) }
    {
        match self.viewer_of(session) {
            Some(viewer) => self.answer_to(session, &viewer, ask, out),
            None => Ok(()),
        }
    }

    /// The same for the session of this number, which has this viewer.
    fn answer_to(
        &mut self,
        session: u32,
        viewer: &Viewer,
        ask: &Ask,
        out: &mut Vec<Output>,
    ) -> Result<(), StepFault>
        requires { option_map viewer_of (numbered session self.old.machine.core.sessions) ≡ Some viewer.now }
        ensures { MatchResult result (λ _. Gives self.old session (Members ask.now) self.new out.old.items out.new.items) (GivesNot self.old session (Members ask.now)) }
    {
        let first = Mark::Chunk(self.chunks.saturating_add(1));
        let chunks = self.chunks_for(viewer, ask)?;
        self.count_chunks(chunks.len())?;
        self.tell(session, first, chunks.as_slice(), out)
    }

    /// The chunks that answer the client of a viewer; none if the guild is not followed.
    fn chunks_for(&self, viewer: &Viewer, ask: &Ask) -> Result<Vec<Dispatch>, AllocError>
        ensures { IfOk result (λ list. list.items ≡ answered_by viewer.now ask.now (record_at in_code self.now.machine.logs ask.now.guild)) }
    {
        match self.replica(ask.guild) {
            Some(replica) => answer(self.alloc, replica.guild(), viewer, ask),
            None => Ok(Vec::new(self.alloc)),
        }
    }

    /// Counts chunks that were made.
    fn count_chunks(&mut self, more: usize) -> Result<(), Spent>
        ensures ok { OnOk result (self.new ≡ record self.old { machine = record self.old.machine { chunks = self.old.machine.chunks + more } }) }
        ensures counted { OnOk result (is_past self.old.machine.chunks more ≡ false) }
        ensures spent { OnErr result (is_past self.old.machine.chunks more ≡ true) }
    {
        let Some(chunks) = self.chunks.checked_add(more as u64) else {
            return Err(Spent);
        };
        self.chunks = chunks;
        Ok(())
    }

    /// Sends dispatches to a session, which are made for one reason, the first under a mark.
    fn tell(
        &mut self,
        session: u32,
        first: Mark,
        dispatches: &[Dispatch],
        out: &mut Vec<Output>,
    ) -> Result<(), StepFault>
        ensures core { OnOk result (self.new ≡ record self.old { machine = record self.old.machine { core = self.new.machine.core } }) }
        ensures told { (index : ℕ) → position (is_numbered session) self.old.machine.core.sessions ≡ Some index
            → MatchResult result (λ _. TellsAt index (λ x. dispatches.now) self.old.machine.core self.new.machine.core out.old.items out.new.items) (FailsAt index (λ x. dispatches.now) self.old.machine.core) }
    {
        self.knows_recipients = false;
        tell(
            self.alloc,
            &mut self.sessions,
            session,
            &first,
            dispatches,
            out,
        )
    }
}

// The text of a payload for a connection.
fn said(alloc: Global, conn: u32, payload: Out) -> Result<Output, AllocError>
    ensures { IfOk result (λ output. output ≡ written (Says conn payload)) }
{
    let text = payload.text(alloc)?;
    let text = Payload::plain(alloc, Text::from_string(text))?;
    Ok(Output::Send(conn, text))
}
