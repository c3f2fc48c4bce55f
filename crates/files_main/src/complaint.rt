//! What the program says on standard error if its status is not 0.
use crate::fault::FilesFault;
use file_commands::{NO_MEMORY, Shown, tell_lift, tell_memory, tell_play, tell_words};
use std::io;
use std::io::Eprint;

// Says that the words are not those of a command over files.
fn tell_other<R: Eprint>(rt: &R, words: &[String]) -> io::Result<()> {
    match words {
        [command, ..] if matches!(command.as_str(), "load" | "serve" | "client") => eprintln!(rt;
            "gate: this program runs and lifts files; ./gate {} builds the whole program (status 2; see README.md)",
            Shown(command.as_str())
        ),
        _ => tell_words(rt, words),
    }
}

/// Says why the command ended with a status other than 0, by its words and its fault.
pub fn tell<R: Eprint>(
    rt: &R,
    words: &[String],
    fault: Option<FilesFault>,
    status: u8,
) -> io::Result<()> {
    match (fault, words) {
        (Some(FilesFault::Play(fault)), [_, file]) => tell_play(rt, file.as_str(), fault),
        (Some(FilesFault::Lift(fault)), [_, file]) => tell_lift(rt, file.as_str(), fault),
        _ if status == NO_MEMORY => tell_memory(rt),
        _ => tell_other(rt, words),
    }
}
