//! What the program says on standard error if its status is not 0.
use crate::fault::GateFault;
use client_follow::FollowFault;
use file_commands::{NO_MEMORY, Shown, line_is, tell_lift, tell_memory, tell_play, tell_words};
use gate_outside::std_house::STANDARD_INPUT;
use load_run::LoadFault;
use serve_run::ServeFault;
use std::io;
use std::io::Eprint;

// Says why a load did not come to its end.
fn tell_load<R: Eprint>(rt: &R, seed: &str, fault: LoadFault) -> io::Result<()> {
    match fault {
        LoadFault::Write => eprintln!(rt;
            "gate: cannot write the summary of load {seed} (status 4; see docs/LOAD.md)"
        ),
        LoadFault::Memory => {
            eprintln!(rt; "gate: out of memory in load {seed} (status 6; see docs/LOAD.md)")
        }
        LoadFault::Door => {
            eprintln!(rt; "gate: a door failed in load {seed} (status 7; see docs/LOAD.md)")
        }
        LoadFault::Start => eprintln!(rt;
            "gate: a thread of load {seed} did not start (status 8; see docs/LOAD.md)"
        ),
        LoadFault::Out(code) => eprintln!(rt;
            "gate: a client of load {seed} was closed with {code} (status 10; see docs/LOAD.md)"
        ),
        LoadFault::BadText => eprintln!(rt;
            "gate: a client of load {seed} got a text that is no payload (status 11; see docs/LOAD.md)"
        ),
        LoadFault::Spent => eprintln!(rt;
            "gate: a count is at its last value in load {seed} (status 12; see docs/LOAD.md)"
        ),
    }
}

// The word that names a file of `serve`, by its number from 1.
fn word_of(files: &[String], number: u8) -> &str {
    match files.get(usize::from(number).saturating_sub(1)) {
        Some(file) if file.as_str() == STANDARD_INPUT => "standard input",
        Some(file) => file.as_str(),
        None => "a file",
    }
}

// Says why a run of `serve` did not come to its end.
fn tell_serve<R: Eprint>(
    rt: &R,
    port: &str,
    files: &[String],
    fault: ServeFault,
) -> io::Result<()> {
    match fault {
        ServeFault::Read => {
            eprintln!(rt;
                "gate: a file of serve {port} cannot be read (status 3; see docs/SERVE.md)"
            )
        }
        ServeFault::Write => eprintln!(rt;
            "gate: cannot write the lines of serve {port} (status 4; see docs/SERVE.md)"
        ),
        ServeFault::Line { file, line, fault } => eprintln!(rt;
            "gate: line {line} of {}: {} (status 5; see docs/STEPS.md)",
            Shown(word_of(files, file)),
            line_is(fault)
        ),
        ServeFault::Memory => {
            eprintln!(rt; "gate: out of memory in serve {port} (status 6; see docs/SERVE.md)")
        }
        ServeFault::Door => eprintln!(rt;
            "gate: a port of serve {port} cannot be listened on, or its door failed (status 7; see docs/SERVE.md)"
        ),
        ServeFault::Start => eprintln!(rt;
            "gate: a thread of serve {port} did not start (status 8; see docs/SERVE.md)"
        ),
        ServeFault::Spent => eprintln!(rt;
            "gate: a count is at its last value in serve {port} (status 12; see docs/SERVE.md)"
        ),
    }
}

// Says why a client did not come to its end. The token is not said.
fn tell_client<R: Eprint>(rt: &R, url: &str, fault: FollowFault) -> io::Result<()> {
    let url = Shown(url);
    match fault {
        FollowFault::Write => eprintln!(rt;
            "gate: cannot write the lines of client {url} (status 4; see docs/CLIENT.md)"
        ),
        FollowFault::Memory => {
            eprintln!(rt; "gate: out of memory in client {url} (status 6; see docs/CLIENT.md)")
        }
        FollowFault::Dials => eprintln!(rt;
            "gate: nine connections of client {url} failed, one after another, without a text between them (status 9; see docs/CLIENT.md)"
        ),
        FollowFault::Closed { code } => eprintln!(rt;
            "gate: client {url} was closed with {code} (status 10; see docs/CLIENT.md)"
        ),
        FollowFault::BadText => eprintln!(rt;
            "gate: client {url} got a text that is no payload (status 11; see docs/CLIENT.md)"
        ),
    }
}

/// Says why the command ended with a status other than 0, by its words and its fault.
pub fn tell<R: Eprint>(
    rt: &R,
    words: &[String],
    fault: Option<GateFault>,
    status: u8,
) -> io::Result<()> {
    match (fault, words) {
        (Some(GateFault::Play(fault)), [_, file]) => tell_play(rt, file.as_str(), fault),
        (Some(GateFault::Lift(fault)), [_, file]) => tell_lift(rt, file.as_str(), fault),
        (Some(GateFault::Load(fault)), [_, seed]) => tell_load(rt, seed.as_str(), fault),
        (Some(GateFault::Serve(fault)), [_, port, _, _, files @ ..]) => {
            tell_serve(rt, port.as_str(), files, fault)
        }
        (Some(GateFault::Follow(fault)), [_, url, ..]) => tell_client(rt, url.as_str(), fault),
        _ if status == NO_MEMORY => tell_memory(rt),
        _ => tell_words(rt, words),
    }
}
