//! What the commands over files say on standard error if their status is not 0.
use crate::shown::Shown;
use edit_text::LineFault;
use file_lift::LiftFault;
use gate_outside::std_house::STANDARD_INPUT;
use scenario::PlayFault;
use std::io;
use std::io::Eprint;

/// What is wrong with a line.
pub fn line_is(fault: LineFault) -> &'static str {
    match fault {
        LineFault::NotJson => "not JSON in UTF-8 without a byte order mark",
        LineFault::NoSuchStep => {
            "no such step or edit, or a bot or guild line after another step"
        }
        LineFault::Missing => "a field is missing, or its name is misspelt",
        LineFault::WrongType => "not an object, or a field of the wrong type or out of its range",
        LineFault::TooLong => "the line, the file, a token or the list of guilds is too long",
        LineFault::Memory => "out of memory",
    }
}

/// Says why the words are not those of a command.
pub fn tell_words<R: Eprint>(rt: &R, words: &[String]) -> io::Result<()> {
    match words {
        [] => eprintln!(rt; "gate: no command (status 2; see README.md)"),
        [command, ..] => match command.as_str() {
            "run" => eprintln!(rt;
                "gate: run takes one file, or - for standard input (status 2; see README.md)"
            ),
            "load" => eprintln!(rt;
                "gate: load takes one seed, a number below 2^64 in digits (status 2; see README.md)"
            ),
            "serve" => eprintln!(rt;
                "gate: serve takes a port, 1 to 65532, a number of workers, 1 to 4, of connections that each accepts, 1 to 1000000, and 1 to 12 files (status 2; see README.md)"
            ),
            "client" => eprintln!(rt;
                "gate: client takes a URL that begins with ws://, of at most 200 bytes, a token, of 1 to 100 bytes, a number of intents, and of dispatches, 1 to 1000000 (status 2; see README.md)"
            ),
            "lift" => eprintln!(rt;
                "gate: lift takes one file, or - for standard input (status 2; see README.md)"
            ),
            word => eprintln!(rt;
                "gate: no command {} (status 2; see README.md)",
                Shown(word)
            ),
        },
    }
}

// The word that names a file.
fn named(file: &str) -> Shown<'_> {
    if file == STANDARD_INPUT {
        return Shown("standard input");
    }
    Shown(file)
}

/// Says why the lift of a file did not come to its end.
pub fn tell_lift<R: Eprint>(rt: &R, file: &str, fault: LiftFault) -> io::Result<()> {
    let file = named(file);
    match fault {
        LiftFault::Read => {
            eprintln!(rt; "gate: cannot read {file} (status 3; see docs/STEPS.md)")
        }
        LiftFault::Write => {
            eprintln!(rt; "gate: cannot write the lines of {file} (status 4; see docs/STEPS.md)")
        }
        LiftFault::Line { line, fault } => eprintln!(rt;
            "gate: line {line} of {file}: {} (status 5; see docs/STEPS.md)",
            line_is(fault)
        ),
        LiftFault::Memory => {
            eprintln!(rt; "gate: out of memory while lifting {file} (status 6; see docs/STEPS.md)")
        }
    }
}

/// Says why the play of a file did not come to its end.
pub fn tell_play<R: Eprint>(rt: &R, file: &str, fault: PlayFault) -> io::Result<()> {
    let file = named(file);
    match fault {
        PlayFault::Read => {
            eprintln!(rt; "gate: cannot read {file} (status 3; see docs/TRANSCRIPT.md)")
        }
        PlayFault::Write => eprintln!(rt;
            "gate: cannot write the transcript of {file} (status 4; see docs/TRANSCRIPT.md)"
        ),
        PlayFault::Line { line, fault } => eprintln!(rt;
            "gate: line {line} of {file}: {} (status 5; see docs/STEPS.md)",
            line_is(fault)
        ),
        PlayFault::Memory => {
            eprintln!(rt;
                "gate: out of memory while playing {file} (status 6; see docs/TRANSCRIPT.md)"
            )
        }
        PlayFault::Spent => eprintln!(rt;
            "gate: a count is at its last value while playing {file} (status 12; see docs/TRANSCRIPT.md)"
        ),
    }
}

/// Says that memory ran out before there were words.
pub fn tell_memory<R: Eprint>(rt: &R) -> io::Result<()> {
    eprintln!(rt; "gate: out of memory (status 6; see docs/TRANSCRIPT.md)")
}

/// Says that a word of the command is not UTF-8.
pub fn tell_no_text<R: Eprint>(rt: &R) -> io::Result<()> {
    eprintln!(rt; "gate: a word is not UTF-8 (status 2; see README.md)")
}
