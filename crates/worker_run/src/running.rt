//! A worker from its first turn to its last.

ghost use Rattle.std.specs.Prelude.{◌≡◌, ℕ, List, Option, [], true, false, All, OnOk, map};
ghost use Rattle.gate_outside.specs.Links.{ReturnedLink};
ghost use Rattle.open_links.specs.Calls.{IsSameDoor};
ghost use Rattle.open_links.specs.Courses.{Events};
ghost use Rattle.open_links.specs.Links.{no_links, Meets, AllMeet};
ghost use Rattle.worker_run.specs.Histories.{History};
ghost use Rattle.worker_run.specs.Hubs.{HasSeenAll};
ghost use Rattle.guild_places.specs.Places.{guilds_of};
ghost use Rattle.worker_run.specs.Moves.{IsReady, CountsLinks, now};
ghost use Rattle.worker_run.specs.Faults.{DoorFails};
ghost use Rattle.worker_run.specs.Running.{Runs, Reports, serving};
ghost use Rattle.guild_posts.specs.Posts.{ArePasses};
ghost use Rattle.edit_post.specs.Post.{after_end};

use crate::fault::WorkFault;
use crate::report::WorkReport;
use crate::serving::Serving;
use edit_post::{Post, SendPass};
use gate_outside::clocks::Clock;
use gate_outside::doors::Door;
use gate_outside::links::Link;
use gate_outside::notes::Notes;
use guild_hub::HubReader;
use guild_posts::end_all;
use indexmap::IndexSet;
use open_links::OpenLinks;
use snowflake_id::Snowflake;
use std::alloc::Global;
use std::mem::replace;
use std::sync::Wait;
use worker_core::{Input, Worker};

impl<L: Link + Drop> Serving<L> {
    /// A worker before its first turn. It takes the readers and the passes from where they are.
    pub fn new(
        alloc: Global,
        worker: Worker,
        index: IndexSet<u64>,
        readers: &mut Vec<(Snowflake, HubReader)>,
        passes: &mut Vec<SendPass>,
    ) -> Serving<L>
        requires { index.keys ≡ guilds_of readers.old.items }
        ensures { result ≡ serving worker no_links readers.old.items passes.old.items false }
    {
        Serving {
            alloc,
            worker,
            links: OpenLinks::new(alloc),
            readers: replace(readers, Vec::new(alloc)),
            passes: replace(passes, Vec::new(alloc)),
            index,
            text: String::new(alloc),
            ended: false,
        }
    }

    // Ends each pass.
    fn end_passes<R: Wait + Drop>(&mut self, posts: &[Post<R>])
        requires { ArePasses posts.now self.old.passes }
        ensures { self.new ≡ record self.old { passes = map after_end self.old.passes } }
    {
        end_all(posts, &mut self.passes);
    }

    /// Serves until the door has ended and no link is open, ends the passes, and goes on looking until
    /// every log has its seal.
    pub fn run<D: Door<Wire = L>, C: Clock, J: Notes<Input>, R: Wait + Drop>(
        &mut self,
        rt: &R,
        door: &mut D,
        clock: &mut C,
        notes: &mut J,
        posts: &[Post<R>],
    ) -> Result<(), WorkFault>
        requires ready { IsReady posts.now self.old (D.tale door.old) }
        ensures count { CountsLinks self.old self.new (D.tale door.old) (D.tale door.new) }
        ensures cause { DoorFails (D.faults door.old) (D.faults door.new) result }
        ensures over { OnOk result (((D.tale door.new).ended ≡ true) × (self.new.links.links ≡ []) × All HasSeenAll self.new.readers) }
        ensures runs { (h : History) × Runs h result (now self.old (D.tale door.old).returned (J.noted notes.old) (C.tale clock.old)) (now self.new (D.tale door.new).returned (J.noted notes.new) (C.tale clock.new)) }
    {
        let served = self.serve(rt, door, clock, notes, posts);
        self.end_passes(posts);
        served?;
        self.drain(rt, clock, notes)
    }

    /// What the worker has done.
    pub fn report(&self) -> WorkReport
        ensures { Reports self.now.worker self.now.links.count result }
    {
        let made = self.worker.made();
        WorkReport {
            connections: u64::from(self.links.count()),
            sessions: made.sessions,
            dispatches: made.dispatches,
        }
    }

    /// The door takes all links back. The readers and the passes go back to where they were.
    pub fn hand_back<D: Door<Wire = L>>(
        self,
        door: &mut D,
        readers: &mut Vec<(Snowflake, HubReader)>,
        passes: &mut Vec<SendPass>,
    )
        ensures readers { readers.new.items ≡ self.readers }
        ensures passes { passes.new.items ≡ self.passes }
        ensures back { (es : Events) (before : Option (List ReturnedLink)) → Meets es self.links before (D.tale door.old).returned → AllMeet es self.links.count before (D.tale door.new).returned }
        ensures door { IsSameDoor (D.tale door.old) (D.tale door.new) }
        ensures faults { D.faults door.new ≡ D.faults door.old }
    {
        let Serving {
            links,
            readers: seen,
            passes: ended,
            ..
        } = self;
        *readers = seen;
        *passes = ended;
        links.give_back(door);
    }
}
