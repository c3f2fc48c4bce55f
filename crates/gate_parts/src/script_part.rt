//! A script's part of a run.
ghost use Rattle.gate_parts.specs.Ready.{CanSend, CanSend-prop};

use crate::ending::Ending;
use crate::posts::Posts;
use crate::seats::{finds_stop, set_after};
use crate::start_word::StartWord;
use edit_post::{SendPass, SendRefused};
use edit_text::Line;
use guild_posts::end_all;
use indexmap::IndexSet;
use script_run::send_script;
use std::alloc::Global;
use std::sync::Wait;
use std::time::Clock;
use stop_flag::StopSeat;

/// A script's part of a run.
pub struct ScriptPart<R: Drop> {
    /// The handle.
    pub rt: R,
    /// What it allocates by.
    pub alloc: Global,
    /// The posts of all actors.
    pub posts: Posts<R>,
    /// A pass of each post, in order.
    pub passes: Vec<SendPass>,
    /// The guilds of the run, in order: that at place p goes by the pass at place p modulo the number of posts.
    pub index: IndexSet<u64>,
    /// The script's lines.
    pub lines: Vec<Line>,
    /// The word by which it begins.
    pub word: StartWord,
    /// Its seat at the stop flag.
    pub seat: StopSeat,
    /// There are posts, and no pass has ended.
    pub ghost ready: { CanSend posts passes.items } by { CanSend-prop posts passes.items },
}

/// A script's part that has ended.
pub struct ScriptDone {
    /// How it ended.
    pub ending: Ending<Result<(), SendRefused>>,
    /// Its passes, which have ended.
    pub passes: Vec<SendPass>,
    /// Its seat at the stop flag, which has set it after a fault.
    pub seat: StopSeat,
}

impl Drop for ScriptDone {
    fn drop(self) {
        let ScriptDone {
            ending,
            passes,
            seat,
        } = self;
        drop(ending);
        drop(passes);
        drop(seat);
    }
}

impl ScriptDone {
    ghost use Rattle.std.specs.Prelude.{◌≡◌};

    /// How it ended, and its passes. The seat is dropped.
    pub fn into_parts(self) -> (Ending<Result<(), SendRefused>>, Vec<SendPass>)
        ensures { (result.0 ≡ self.ending) × (result.1 ≡ self.passes) }
    {
        let ScriptDone {
            ending,
            passes,
            seat,
        } = self;
        drop(seat);
        (ending, passes)
    }
}

// One call drops a part, so that no crate above proves the drop of what it holds again.
impl<R: Drop> Drop for ScriptPart<R> {
    fn drop(self) {
        let ScriptPart {
            rt: _,
            alloc: _,
            posts,
            passes,
            index,
            lines,
            word,
            seat,
        } = self;
        drop(posts);
        drop(passes);
        drop(index);
        drop(lines);
        drop(word);
        drop(seat);
    }
}

impl<R: Wait + Clock + Drop> ScriptPart<R> {
    ghost use Rattle.std.specs.Prelude.{◌≡◌, false, map};
    ghost use Rattle.edit_post.specs.Post.{after_end};
    ghost use Rattle.gate_parts.specs.declared.ending.Ending.TheVariants.{Stopped};
    ghost use Rattle.gate_parts.specs.Endings.{has_stopped};
    ghost use Rattle.gate_parts.specs.Scripts.{ScriptGives};

    // Ends its passes.
    fn stop(self) -> ScriptDone
        ensures { (result.ending ≡ Stopped) × (result.seat ≡ self.seat) × (result.passes.items ≡ map after_end self.passes.items) }
    {
        let ScriptPart {
            rt: _,
            alloc: _,
            posts,
            mut passes,
            index,
            lines,
            word,
            seat,
        } = self;
        drop(index);
        drop(lines);
        drop(word);
        end_all(posts.as_slice(), &mut passes);
        ScriptDone {
            ending: Ending::Stopped,
            passes,
            seat,
        }
    }

    // Sends its edits, ends its passes, and sets the flag after a fault.
    fn send(self) -> ScriptDone
        ensures ran { has_stopped result.ending ≡ false }
        ensures gives { ScriptGives self result }
    {
        let ScriptPart {
            rt: _,
            alloc: _,
            posts,
            mut passes,
            index,
            lines,
            word: _,
            mut seat,
        } = self;
        let sent = send_script(posts.as_slice(), &mut passes, &index, lines);
        set_after(&mut seat, sent.is_err());
        ScriptDone {
            ending: Ending::Ran(sent),
            passes,
            seat,
        }
    }

    /// Waits for the word, and then sends the edits of the script, in order, and ends its passes. If it finds
    /// the stop flag set, it only ends them. It sets the flag if a post refuses an edit.
    pub fn run(mut self) -> ScriptDone
        ensures { ScriptGives self result }
    {
        self.word.wait(&self.rt);
        if finds_stop(&mut self.seat) {
            return self.stop();
        }
        self.send()
    }
}
