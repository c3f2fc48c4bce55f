//! The program for files: `gate run FILE` and `gate lift FILE`.
#![tactic(auto)]

mod complaint;
mod fault;
mod files;

use complaint::tell;
use file_commands::{BAD_WORDS, NO_MEMORY, tell_memory, tell_no_text, words_of};
use files::gate_files;
use gate_outside::buffered_sink::BufferedSink;
use gate_outside::no_network::NoNetwork;
use gate_outside::std_house::RealHouse;
use gate_outside::std_streams::StdoutSink;
use std::alloc::Alloc;
use std::io;
use std::process::ExitCode;

fn main(rt: HostRuntime) -> io::Result<ExitCode> {
    let Ok((words, are_text)) = words_of(&rt) else {
        let _ = tell_memory(&rt);
        return Ok(ExitCode::from(NO_MEMORY));
    };
    let Ok(mut sink) = BufferedSink::new(rt.alloc(), StdoutSink::new(rt.clone()?)) else {
        let _ = tell_memory(&rt);
        return Ok(ExitCode::from(NO_MEMORY));
    };
    let mut house = RealHouse::new(rt, NoNetwork::new());
    let mut fault = None;
    let status = gate_files(
        rt.alloc(),
        words.as_slice(),
        &mut house,
        &mut sink,
        &mut fault,
    );
    // If standard error takes nothing, the status still says what happened.
    if status == BAD_WORDS && !are_text {
        let _ = tell_no_text(&rt);
    } else if status != 0 {
        let _ = tell(&rt, words.as_slice(), fault, status);
    }
    Ok(ExitCode::from(status))
}
