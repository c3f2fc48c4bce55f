//! Calls public functions of the lower crates, a line a call, and prints what each answers:
//! `worked_calls FILE`, where a line is the name of a call and what it is given.
#![tactic(auto)]

mod bits;
mod kept;
mod texts;
mod words;

use std::{env, fs};

// What a call answers, where one has that name.
fn answer(rt: &HostRuntime, name: &str, given: &str) -> anyhow::Result<Option<String>> {
    if let Some(answer) = bits::answer(rt.alloc(), name, given)? {
        return Ok(Some(answer));
    }
    if let Some(answer) = texts::answer(rt.alloc(), name, given)? {
        return Ok(Some(answer));
    }
    kept::answer(rt.alloc(), name, given)
}

fn print_line(rt: &HostRuntime, line: &str) -> anyhow::Result<()> {
    let (name, given) = line.split_once(' ').unwrap_or((line, ""));
    match answer(rt, name, given)? {
        Some(answer) => println!(rt; "{name}: {answer}")?,
        None => println!(rt; "{name}: no such call")?,
    }
    Ok(())
}

fn print_file(rt: &HostRuntime, path: &str) -> anyhow::Result<()> {
    let text = fs::read_to_string(rt, path)?;
    for line in text.as_str().lines() {
        print_line(rt, line)?;
    }
    Ok(())
}

fn main(rt: HostRuntime) -> anyhow::Result<()> {
    for path in env::args(&rt)?.skip(1) {
        print_file(&rt, path.as_str())?;
    }
    Ok(())
}
