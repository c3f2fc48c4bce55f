//! The program `gate`.
#![tactic(auto)]

mod complaint;
mod fault;
mod following;
mod gate;
mod loading;
mod statuses;
mod team;

use complaint::tell;
use file_commands::{BAD_WORDS, NO_MEMORY, tell_memory, tell_no_text, words_of};
use gate_outside::buffered_sink::BufferedSink;
use gate_outside::std_house::RealHouse;
use gate_outside::std_streams::StdoutSink;
use link_edge::socket_network::SocketNetwork;
use load_parts::with_part_threads;
use serve_parts::with_serve_threads;
use std::alloc::Alloc;
use std::io;
use std::process::ExitCode;
use team::{Ended, GateWork, LoadWork, ServeWork};

// Whether the first word is `serve`.
fn is_serve(words: &[String]) -> bool {
    match words {
        [command, ..] => command.as_str() == "serve",
        [] => false,
    }
}

fn main(rt: HostRuntime) -> io::Result<ExitCode> {
    let Ok((words, are_text)) = words_of(&rt) else {
        let _ = tell_memory(&rt);
        return Ok(ExitCode::from(NO_MEMORY));
    };
    let Ok(sink) = BufferedSink::new(rt.alloc(), StdoutSink::new(rt.clone()?)) else {
        let _ = tell_memory(&rt);
        return Ok(ExitCode::from(NO_MEMORY));
    };
    let work = GateWork {
        rt,
        alloc: rt.alloc(),
        words: words.as_slice(),
        house: RealHouse::new(rt, SocketNetwork::new(rt.alloc(), rt)),
        sink,
    };
    let none_fails = Vec::new(rt.alloc());
    let Ended { status, fault } = if is_serve(words.as_slice()) {
        with_serve_threads(&rt, rt.alloc(), none_fails, ServeWork(work))
    } else {
        with_part_threads(&rt, rt.alloc(), none_fails, LoadWork(work))
    };
    // If standard error takes nothing, the status still says what happened.
    if status == BAD_WORDS && !are_text {
        let _ = tell_no_text(&rt);
    } else if status != 0 {
        let _ = tell(&rt, words.as_slice(), fault, status);
    }
    Ok(ExitCode::from(status))
}
