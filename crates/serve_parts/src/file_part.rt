//! A script's part of a server, which reads its file as it comes.
ghost use Rattle.gate_parts.specs.Ready.{CanSend, CanSend-prop};

use edit_post::SendPass;
use file_script::{FileScript, ScriptFault, send_file};
use gate_outside::streams::Source;
use gate_parts::{Ending, Posts, StartWord};
use guild_posts::end_all;
use indexmap::IndexSet;
use std::alloc::Global;
use std::sync::Wait;
use std::time::Clock;
use stop_flag::StopSeat;

/// A script's part of a server, which reads its file as it comes.
pub struct FilePart<S, R: Drop> {
    /// The handle.
    pub rt: R,
    /// What it allocates by.
    pub alloc: Global,
    /// The posts of all actors.
    pub posts: Posts<R>,
    /// A pass of each post, in order.
    pub passes: Vec<SendPass>,
    /// The guilds of the server, in order: that at place p goes by the pass at place p modulo the number of
    /// posts, and any other by the first.
    pub index: IndexSet<u64>,
    /// The source of its file.
    pub source: S,
    /// The script, whose file was read to the end of its head.
    pub script: FileScript,
    /// The word by which it begins.
    pub word: StartWord,
    /// Its seat at the stop flag.
    pub seat: StopSeat,
    /// There are posts, and no pass has ended.
    pub ghost ready: { CanSend posts passes.items } by { CanSend-prop posts passes.items },
}

/// A script's part that has ended.
#[derive(Drop)]
pub struct FileDone<S> {
    /// How it ended.
    pub ending: Ending<Result<(), ScriptFault>>,
    /// The source of its file.
    pub source: S,
    /// Its passes, which have ended.
    pub passes: Vec<SendPass>,
    /// Its seat at the stop flag, which it has not set.
    pub seat: StopSeat,
}

// One call drops a part, so that no crate above proves the drop of what it holds again.
impl<S: Drop, R: Drop> Drop for FilePart<S, R> {
    fn drop(self) {
        drop(self.into_source());
    }
}

impl<S, R: Drop> FilePart<S, R> {
    ghost use Rattle.std.specs.Prelude.{◌≡◌};

    /// The source. All else is dropped.
    pub fn into_source(self) -> S
        ensures { result ≡ self.source }
    {
        let FilePart {
            rt: _,
            alloc: _,
            posts,
            passes,
            index,
            source,
            script,
            word,
            seat,
        } = self;
        drop(posts);
        drop(passes);
        drop(index);
        drop(script);
        drop(word);
        drop(seat);
        source
    }
}

impl<S: Source, R: Wait + Clock + Drop> FilePart<S, R> {
    ghost use Rattle.std.specs.Prelude.{◌≡◌, false, map};
    ghost use Rattle.edit_post.specs.Post.{after_end};
    ghost use Rattle.gate_parts.specs.declared.ending.Ending.TheVariants.{Stopped};
    ghost use Rattle.gate_parts.specs.Endings.{has_stopped};
    ghost use Rattle.serve_parts.specs.Files.{FileGives};

    // Ends its passes.
    fn stop(self) -> FileDone<S>
        ensures seat { (result.ending ≡ Stopped) × (result.seat ≡ self.seat) }
        ensures same { (result.source ≡ self.source) × (result.passes.items ≡ map after_end self.passes.items) }
    {
        let FilePart {
            rt: _,
            alloc: _,
            posts,
            mut passes,
            index,
            source,
            script,
            word,
            seat,
        } = self;
        drop(index);
        drop(script);
        drop(word);
        end_all(posts.as_slice(), &mut passes);
        FileDone {
            ending: Ending::Stopped,
            source,
            passes,
            seat,
        }
    }

    // Sends its edits, and ends its passes.
    fn send(self) -> FileDone<S>
        ensures ran { has_stopped result.ending ≡ false }
        ensures gives { FileGives S.left S.faults self result }
    {
        let FilePart {
            rt: _,
            alloc: _,
            posts,
            mut passes,
            index,
            mut source,
            script,
            word: _,
            seat,
        } = self;
        let sent = send_file(posts.as_slice(), &mut passes, &index, &mut source, script);
        FileDone {
            ending: Ending::Ran(sent),
            source,
            passes,
            seat,
        }
    }

    /// Waits for the word, and then sends the edits of the file, in order, each as soon as its line is read,
    /// and ends its passes. If it finds the stop flag set, it only ends them. It sets the flag in no case,
    /// so that no other part stops after its fault.
    pub fn run(mut self) -> FileDone<S>
        ensures { FileGives S.left S.faults self result }
    {
        self.word.wait(&self.rt);
        if self.seat.is_set() {
            return self.stop();
        }
        self.send()
    }
}
