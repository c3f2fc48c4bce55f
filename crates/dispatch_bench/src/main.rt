//! Dispatches from texts: `dispatch_bench write|read TURNS FILE` tells how fast they are written and
//! read, where each line of the file is the text of a dispatch, and prints how many bytes that were.
//! `dispatch_bench show FILE` prints each line as it is read: the text of the same dispatch as it is
//! written, or why it is none.
#![tactic(auto)]

use dispatch_types::Dispatch;
use event_json::{DispatchFault, envelope_of, read, write};
use payload_text::Payload;
use std::alloc::{AllocError, Global};
use std::{env, fs};

/// Sessions that are sent the same dispatch.
const SESSIONS: u64 = 64;

fn read_all(alloc: Global, lines: &[String]) -> anyhow::Result<Vec<Dispatch>> {
    let mut dispatches = Vec::new(alloc);
    for line in lines {
        let (dispatch, _) = read(alloc, line.as_str())?;
        dispatches.push(dispatch)?;
    }
    Ok(dispatches)
}

fn size_of(lines: &[String]) -> u64 {
    let mut size = 0u64;
    for line in lines {
        size = size.wrapping_add(line.len() as u64);
    }
    size
}

// One envelope for all sessions, each of which has a number of its own.
fn write_one(alloc: Global, out: &mut Vec<u8>, dispatch: &Dispatch) -> Result<(), AllocError> {
    let envelope = envelope_of(alloc, dispatch)?;
    out.clear();
    for number in 0..SESSIONS {
        Payload::numbered(&envelope, number)?.append(out)?;
    }
    Ok(())
}

fn write_all(alloc: Global, turns: u64, dispatches: &[Dispatch]) -> Result<u64, AllocError> {
    let mut out = Vec::new(alloc);
    let mut size = 0u64;
    for _ in 0..turns {
        for dispatch in dispatches {
            write_one(alloc, &mut out, dispatch)?;
            size = size.wrapping_add(out.len() as u64);
        }
    }
    Ok(size)
}

fn read_often(alloc: Global, turns: u64, lines: &[String]) -> anyhow::Result<u64> {
    let mut size = 0u64;
    for _ in 0..turns {
        let _dispatches = read_all(alloc, lines)?;
        size = size.wrapping_add(size_of(lines));
    }
    Ok(size)
}

fn lines_of(alloc: Global, text: &str) -> Result<Vec<String>, AllocError> {
    let mut lines = Vec::new(alloc);
    for line in text.lines() {
        lines.push(String::from_str(alloc, line)?)?;
    }
    Ok(lines)
}

// The dispatch that a text is, as it is written.
fn written(alloc: Global, line: &str) -> Result<String, DispatchFault> {
    let (dispatch, number) = read(alloc, line)?;
    let text = write(alloc, &dispatch, number);
    drop(dispatch);
    Ok(text?)
}

fn show(rt: &HostRuntime, line: &str) -> anyhow::Result<()> {
    match written(rt.alloc(), line) {
        Ok(text) => println!(rt; "{text}")?,
        Err(fault) => println!(rt; "{fault}")?,
    }
    Ok(())
}

fn show_all(rt: &HostRuntime, path: &str) -> anyhow::Result<()> {
    let text = fs::read_to_string(rt, path)?;
    for line in text.as_str().lines() {
        show(rt, line)?;
    }
    Ok(())
}

fn time(rt: &HostRuntime, way: &str, turns: &str, path: &str) -> anyhow::Result<()> {
    let alloc = rt.alloc();
    let turns = turns.parse::<u64>()?;
    let text = fs::read_to_string(rt, path)?;
    let lines = lines_of(alloc, text.as_str())?;
    let size = if way == "read" {
        read_often(alloc, turns, lines.as_slice())?
    } else {
        let dispatches = read_all(alloc, lines.as_slice())?;
        write_all(alloc, turns, dispatches.as_slice())?
    };
    println!(rt; "{size}")?;
    Ok(())
}

fn words_of(rt: &HostRuntime) -> anyhow::Result<Vec<String>> {
    let mut words = Vec::new(rt.alloc());
    for word in env::args(rt)?.skip(1) {
        words.push(word)?;
    }
    Ok(words)
}

fn main(rt: HostRuntime) -> anyhow::Result<()> {
    let words = words_of(&rt)?;
    match words.as_slice() {
        [way, path] if way.as_str() == "show" => show_all(&rt, path.as_str()),
        [way, turns, path] => time(&rt, way.as_str(), turns.as_str(), path.as_str()),
        _ => {
            eprintln!(rt; "usage: dispatch_bench write|read TURNS FILE | show FILE")?;
            Ok(())
        }
    }
}
