//! A worker while it serves: each input goes to it, and its outputs go out before the next.

ghost use Rattle.std.specs.Prelude.{◌≡◌, ◌<◌, [], ◌∷◌, true, length, List, Option, OnOk, MatchResult, IfSome, string_bytes};
ghost use Rattle.gate_outside.specs.Clocks.{ClockTale};
ghost use Rattle.gate_outside.specs.Links.{ReturnedLink};
ghost use Rattle.open_links.specs.Calls.{IsSameDoor, is_done, EndsBy as EndsLink};
ghost use Rattle.world_law.specs.Inputs.{Input as ModelInput};
ghost use Rattle.worker_core.specs.Outputs.{IsGiven};
ghost use Rattle.worker_core.specs.declared.io.Output.TheVariants.{Send, Close, Wish};
ghost use Rattle.worker_run.specs.Histories.{History, Took, Gave, given_out};
ghost use Rattle.worker_run.specs.Workers.{FollowsAll};
ghost use Rattle.worker_run.specs.Notes.{AreNoted};
ghost use Rattle.worker_run.specs.Stopping.{TakesNot};
ghost use Rattle.guild_posts.specs.Posts.{ArePasses};
ghost use Rattle.worker_run.specs.Moves.{IsReady, Gives, GivesNot, GivesFront, Handles, HandlesNot, EndsBy, EndsNot, Loses, LosesNot, now};

use crate::fault::WorkFault;
use crate::intake::take_in;
use edit_apply::Edit;
use edit_post::{Post, SendPass};
use gate_outside::doors::Door;
use gate_outside::links::Link;
use gate_outside::notes::Notes;
use guild_hub::HubReader;
use guild_posts::send;
use indexmap::IndexSet;
use itoa::Buffer;
use open_links::OpenLinks;
use payload_text::Payload;
use snowflake_id::Snowflake;
use std::alloc::{AllocError, Global};
use std::marker::Model;
use std::sync::Wait;
use worker_core::{Input, Output, Worker};

/// A worker with its open links, the readers of its guilds' hubs, and the passes by which it sends what
/// its clients ask for.
#[derive(Drop)]
pub struct Serving<L: Link + Drop> {
    pub alloc: Global,
    pub worker: Worker,
    pub links: OpenLinks<L>,
    pub readers: Vec<(Snowflake, HubReader)>,
    pub passes: Vec<SendPass>,
    pub index: IndexSet<u64>,
    /// The text that goes out.
    pub text: String,
    /// Whether the door has ended.
    pub ended: bool,
}

impl<L: Link + Drop> Model for Serving<L> {
    ghost use Rattle.std.specs.Prelude.{◌≡◌};
    ghost use Rattle.guild_places.specs.Places.{guilds_of};
    ghost use Rattle.worker_run.specs.Moves.{Serving};

    ghost Value = { Serving };

    ghost view = { λ s. record {
      worker = s.worker;
      links = s.links;
      readers = s.readers.items;
      passes = s.passes.items;
      ended = s.ended;
    } };

    ghost invariant = { λ s. s.index.keys ≡ guilds_of s.readers.items };
}

// Writes a payload over what stands in a text.
fn write_over(text: &mut String, payload: &Payload) -> Result<(), AllocError>
    ensures { OnOk result (string_bytes text.new ≡ payload.now) }
{
    let mut buffer = Buffer::new();
    let pieces = payload.pieces(&mut buffer);
    text.clear();
    text.push_str(pieces.head)?;
    text.push_str(pieces.number)?;
    text.push_str(pieces.tail)?;
    Ok(())
}

impl<L: Link + Drop> Serving<L> {
    // Sends a text over a connection.
    fn send(&mut self, conn: u32, payload: &Payload) -> Result<(), WorkFault>
        ensures { (back : Option (List ReturnedLink)) → MatchResult result
            (λ _. Gives (Gave (Send conn payload.now) ∷ []) self.old self.new back back)
            (λ fault. GivesNot fault self.old self.new back back) }
    {
        write_over(&mut self.text, payload)?;
        self.links.send(conn, self.text.as_str())?;
        Ok(())
    }

    // Closes a connection with a code.
    fn close<D: Door<Wire = L>>(
        &mut self,
        door: &mut D,
        conn: u32,
        code: u16,
    ) -> Result<(), WorkFault>
        ensures door { IsSameDoor (D.tale door.old) (D.tale door.new) }
        ensures faults { D.faults door.new ≡ D.faults door.old }
        ensures gives { MatchResult result
            (λ _. Gives (Gave (Close conn code) ∷ []) self.old self.new (D.tale door.old).returned (D.tale door.new).returned)
            (λ fault. GivesNot fault self.old self.new (D.tale door.old).returned (D.tale door.new).returned) }
    {
        self.links.close(door, conn, code)?;
        Ok(())
    }

    // An edit goes to the actor of its guild.
    fn wish<R: Wait + Drop>(
        &mut self,
        posts: &[Post<R>],
        guild: Snowflake,
        edit: Edit,
    ) -> Result<(), WorkFault>
        requires some { 0 < length posts.now }
        requires passes { ArePasses posts.now self.old.passes }
        ensures { (back : Option (List ReturnedLink)) → MatchResult result
            (λ _. Gives (Gave (Wish guild edit) ∷ []) self.old self.new back back)
            (λ fault. GivesNot fault self.old self.new back back) }
    {
        send(posts, &mut self.passes, &self.index, guild, edit)?;
        Ok(())
    }

    // An output goes out.
    fn give<D: Door<Wire = L>, R: Wait + Drop>(
        &mut self,
        door: &mut D,
        posts: &[Post<R>],
        output: Output,
    ) -> Result<(), WorkFault>
        requires ready { IsReady posts.now self.old (D.tale door.old) }
        ensures ready { IsReady posts.now self.new (D.tale door.new) }
        ensures door { IsSameDoor (D.tale door.old) (D.tale door.new) }
        ensures faults { D.faults door.new ≡ D.faults door.old }
        ensures gives { MatchResult result
            (λ _. Gives (Gave output ∷ []) self.old self.new (D.tale door.old).returned (D.tale door.new).returned)
            (λ fault. GivesNot fault self.old self.new (D.tale door.old).returned (D.tale door.new).returned) }
    {
        match output {
            Output::Send(conn, payload) => self.send(conn, &payload),
            Output::Close(conn, code) => self.close(door, conn, code),
            Output::Wish(guild, wished) => self.wish(posts, guild, wished.into_edit()),
        }
    }

    // Outputs go out in order.
    fn give_all<D: Door<Wire = L>, R: Wait + Drop>(
        &mut self,
        door: &mut D,
        posts: &[Post<R>],
        outputs: Vec<Output>,
    ) -> Result<(), WorkFault>
        requires ready { IsReady posts.now self.old (D.tale door.old) }
        ensures ready { IsReady posts.now self.new (D.tale door.new) }
        ensures door { IsSameDoor (D.tale door.old) (D.tale door.new) }
        ensures faults { D.faults door.new ≡ D.faults door.old }
        ensures gives { MatchResult result
            (λ _. Gives (given_out outputs.items) self.old self.new (D.tale door.old).returned (D.tale door.new).returned)
            (λ fault. GivesFront outputs.items fault self.old self.new (D.tale door.old).returned (D.tale door.new).returned) }
    {
        for output in outputs {
            self.give(door, posts, output)?;
        }
        Ok(())
    }

    /// The worker takes an input. It gives what the worker owes for it.
    pub fn take<J: Notes<Input>>(
        &mut self,
        notes: &mut J,
        input: Input,
    ) -> Result<Vec<Output>, WorkFault>
        ensures same { self.new ≡ record self.old { worker = self.new.worker } }
        ensures takes { (i : ModelInput) → IsGiven input i → MatchResult result
            (λ out. FollowsAll self.old.worker (Took i ∷ []) out.items self.new.worker × AreNoted (i ∷ []) (J.noted notes.old) (J.noted notes.new))
            (TakesNot i self.old.worker (J.noted notes.old) (J.noted notes.new)) }
    {
        take_in(&mut self.worker, notes, input)
    }

    // The door takes back the link of a connection that has ended.
    fn end<D: Door<Wire = L>>(&mut self, door: &mut D, conn: u32)
        ensures same { self.new ≡ record self.old { links = self.new.links } }
        ensures count { self.new.links.count ≡ self.old.links.count }
        ensures ends { EndsLink conn self.old.links (D.tale door.old).returned self.new.links (D.tale door.new).returned }
        ensures door { IsSameDoor (D.tale door.old) (D.tale door.new) }
        ensures faults { D.faults door.new ≡ D.faults door.old }
    {
        self.links.end(door, conn);
    }

    // How many links are open.
    fn open_count(&self) -> usize
        ensures { result ≡ length self.now.links.links }
    {
        self.links.len()
    }

    // The connection of the first link that is done with.
    fn first_done(&self) -> Option<u32>
        ensures { IfSome result (λ conn. is_done conn self.now.links.links ≡ true) }
    {
        self.links.first_done()
    }

    /// The worker takes an input by which a connection ends. The door takes its link back.
    pub fn end_by<D: Door<Wire = L>, J: Notes<Input>, R: Wait + Drop>(
        &mut self,
        door: &mut D,
        notes: &mut J,
        posts: &[Post<R>],
        input: Input,
        conn: u32,
    ) -> Result<(), WorkFault>
        requires ready { IsReady posts.now self.old (D.tale door.old) }
        ensures ready { IsReady posts.now self.new (D.tale door.new) }
        ensures door { IsSameDoor (D.tale door.old) (D.tale door.new) }
        ensures faults { D.faults door.new ≡ D.faults door.old }
        ensures ends { (i : ModelInput) (c : ClockTale) → IsGiven input i → MatchResult result
            (λ _. (h : History) × EndsBy conn i h (now self.old (D.tale door.old).returned (J.noted notes.old) c) (now self.new (D.tale door.new).returned (J.noted notes.new) c))
            (λ fault. (h : History) × EndsNot conn i h fault (now self.old (D.tale door.old).returned (J.noted notes.old) c) (now self.new (D.tale door.new).returned (J.noted notes.new) c)) }
    {
        let outputs = self.take(notes, input)?;
        self.end(door, conn);
        self.give_all(door, posts, outputs)
    }

    /// Each connection whose link has failed is lost.
    pub fn lose_failed<D: Door<Wire = L>, J: Notes<Input>, R: Wait + Drop>(
        &mut self,
        door: &mut D,
        notes: &mut J,
        posts: &[Post<R>],
    ) -> Result<(), WorkFault>
        requires ready { IsReady posts.now self.old (D.tale door.old) }
        ensures ready { IsReady posts.now self.new (D.tale door.new) }
        ensures door { IsSameDoor (D.tale door.old) (D.tale door.new) }
        ensures faults { D.faults door.new ≡ D.faults door.old }
        ensures loses { (c : ClockTale) → MatchResult result
            (λ _. (h : History) × Loses h (now self.old (D.tale door.old).returned (J.noted notes.old) c) (now self.new (D.tale door.new).returned (J.noted notes.new) c))
            (λ fault. (h : History) × LosesNot h fault (now self.old (D.tale door.old).returned (J.noted notes.old) c) (now self.new (D.tale door.new).returned (J.noted notes.new) c)) }
    {
        for _ in 0..self.open_count() {
            let Some(conn) = self.first_done() else {
                return Ok(());
            };
            self.end_by(door, notes, posts, Input::Lost(conn), conn)?;
        }
        Ok(())
    }

    /// The worker takes an input, and its outputs go out. If there are any, each connection whose link has
    /// failed is lost then; else the open links are not gone over.
    pub fn handle<D: Door<Wire = L>, J: Notes<Input>, R: Wait + Drop>(
        &mut self,
        door: &mut D,
        notes: &mut J,
        posts: &[Post<R>],
        input: Input,
    ) -> Result<(), WorkFault>
        requires ready { IsReady posts.now self.old (D.tale door.old) }
        ensures ready { IsReady posts.now self.new (D.tale door.new) }
        ensures door { IsSameDoor (D.tale door.old) (D.tale door.new) }
        ensures faults { D.faults door.new ≡ D.faults door.old }
        ensures handles { (i : ModelInput) (c : ClockTale) → IsGiven input i → MatchResult result
            (λ _. (h : History) × Handles i h (now self.old (D.tale door.old).returned (J.noted notes.old) c) (now self.new (D.tale door.new).returned (J.noted notes.new) c))
            (λ fault. (h : History) × HandlesNot i h fault (now self.old (D.tale door.old).returned (J.noted notes.old) c) (now self.new (D.tale door.new).returned (J.noted notes.new) c)) }
    {
        let outputs = self.take(notes, input)?;
        let silent = outputs.is_empty();
        self.give_all(door, posts, outputs)?;
        if silent {
            return Ok(());
        }
        self.lose_failed(door, notes, posts)
    }
}
