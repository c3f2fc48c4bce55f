//! An actor's part of a run.
ghost use Rattle.gate_parts.specs.Ready.{CanAct, CanAct-prop};

use crate::acting::act_at;
use crate::ending::Ending;
use crate::posts::Posts;
use crate::seats::{finds_stop, set_after};
use crate::start_word::StartWord;
use edit_post::TakePass;
use guild_actor::ActReport;
use guild_hub::HubWriter;
use snowflake_id::Snowflake;
use std::alloc::{AllocError, Global};
use std::sync::Wait;
use std::time::Clock;
use stop_flag::StopSeat;

/// An actor's part of a run.
pub struct ActorPart<R: Wait + Drop> {
    /// The handle.
    pub rt: R,
    /// What it allocates by.
    pub alloc: Global,
    /// The posts of all actors.
    pub posts: Posts<R>,
    /// The place of its own post.
    pub place: usize,
    /// Its pass.
    pub pass: TakePass,
    /// The logs of its guilds.
    pub writers: Vec<(Snowflake, HubWriter<R>)>,
    /// The word by which it begins.
    pub word: StartWord,
    /// Its seat at the stop flag.
    pub seat: StopSeat,
    /// Its pass is that of its post and has taken nothing, and its logs are new and of distinct guilds.
    pub ghost ready: { CanAct posts place pass writers.items } by { CanAct-prop posts place pass writers.items },
}

/// An actor's part that has ended.
pub struct ActorDone<R: Wait + Drop> {
    /// How it ended.
    pub ending: Ending<Result<ActReport<R>, AllocError>>,
    /// Its seat at the stop flag, which has set it after a fault.
    pub seat: StopSeat,
}

impl<R: Wait + Drop> Drop for ActorDone<R> {
    fn drop(self) {
        let ActorDone { ending, seat } = self;
        drop(ending);
        drop(seat);
    }
}

impl<R: Wait + Drop> ActorDone<R> {
    ghost use Rattle.std.specs.Prelude.{◌≡◌};

    /// How it ended. The seat is dropped.
    pub fn into_ending(self) -> Ending<Result<ActReport<R>, AllocError>>
        ensures { result ≡ self.ending }
    {
        let ActorDone { ending, seat } = self;
        drop(seat);
        ending
    }
}

// One call drops a part, so that no crate above proves the drop of what it holds again.
impl<R: Wait + Drop> Drop for ActorPart<R> {
    fn drop(self) {
        let ActorPart {
            rt: _,
            alloc: _,
            posts,
            place: _,
            pass,
            writers,
            word,
            seat,
        } = self;
        drop(posts);
        drop(pass);
        drop(writers);
        drop(word);
        drop(seat);
    }
}

impl<R: Wait + Clock + Drop> ActorPart<R> {
    ghost use Rattle.std.specs.Prelude.{◌≡◌, false};
    ghost use Rattle.gate_parts.specs.declared.ending.Ending.TheVariants.{Stopped};
    ghost use Rattle.gate_parts.specs.Endings.{has_stopped};
    ghost use Rattle.gate_parts.specs.Actors.{ActorGives};

    // Does nothing.
    fn stop(self) -> ActorDone<R>
        ensures { (result.ending ≡ Stopped) × (result.seat ≡ self.seat) }
    {
        let ActorPart {
            rt: _,
            alloc: _,
            posts,
            place: _,
            pass,
            writers,
            word,
            seat,
        } = self;
        drop(posts);
        drop(writers);
        drop(pass);
        drop(word);
        ActorDone {
            ending: Ending::Stopped,
            seat,
        }
    }

    // Acts, and sets the flag after a fault.
    fn act(self) -> ActorDone<R>
        ensures ran { has_stopped result.ending ≡ false }
        ensures gives { ActorGives self result }
    {
        let ActorPart {
            rt,
            alloc,
            posts,
            place,
            pass,
            writers,
            word: _,
            mut seat,
        } = self;
        let acted = act_at(
            &rt,
            alloc,
            posts.as_slice(),
            posts.shown(),
            place,
            pass,
            writers,
        );
        set_after(&mut seat, acted.is_err());
        ActorDone {
            ending: Ending::Ran(acted),
            seat,
        }
    }

    /// Waits for the word, and then acts on the post at its place, until every sender has ended and each log
    /// has its seal. If it finds the stop flag set, it does nothing, and each log ends without a seal. It sets
    /// the flag if memory runs out.
    pub fn run(mut self) -> ActorDone<R>
        ensures { ActorGives self result }
    {
        self.word.wait(&self.rt);
        if finds_stop(&mut self.seat) {
            return self.stop();
        }
        self.act()
    }
}
