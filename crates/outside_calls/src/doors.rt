//! Doors in memory.

use crate::words::{content, heard};
use gate_outside::accepted::Accepted;
use gate_outside::dials::Dial;
use gate_outside::doors::Door;
use gate_outside::faults::Fault;
use gate_outside::links::Link;
use std::alloc::{AllocError, Global};
use std::collections::VecDeque;
use std::sync::Wait;
use std::thread;
use std::thread::Threads;
use thread_outside::dialled_door::DialledDoor;
use thread_outside::door_dial::DoorDial;
use thread_outside::link_content::LinkContent;
use thread_outside::mem_door::MemDoor;
use thread_outside::script::Script;
use thread_outside::sure_door::SureDoor;

// What a door answers. A link is heard once and goes back.
fn answered<D: Door>(
    alloc: Global,
    door: &mut D,
    answer: Result<Accepted<D::Wire>, Fault>,
) -> Result<String, AllocError> {
    match answer {
        Ok(Accepted::Link(mut link)) => {
            let heard = heard(alloc, link.recv());
            door.back(link);
            heard
        }
        Ok(Accepted::NotYet) => String::from_str(alloc, "not yet"),
        Ok(Accepted::Ended) => String::from_str(alloc, "ended"),
        Err(fault) => format!(in alloc; "{fault:?}"),
    }
}

/// What a door answers once more.
pub fn ask<D: Door>(alloc: Global, door: &mut D) -> Result<String, AllocError> {
    let answer = door.accept();
    answered(alloc, door, answer)
}

// One waits, then nobody, then another.
fn add_callers(
    alloc: Global,
    callers: &mut VecDeque<Option<LinkContent<Script>>>,
) -> Result<(), AllocError> {
    callers.push_back(Some(content(alloc, "one", &[])?))?;
    callers.push_back(None)?;
    callers.push_back(Some(content(alloc, "two", &[1])?))?;
    Ok(())
}

// A door at which these wait. Its second call fails.
fn planned(alloc: Global) -> Result<MemDoor<Script>, AllocError> {
    let failing = [2].to_vec(alloc)?;
    let mut callers = VecDeque::new(alloc);
    let added = add_callers(alloc, &mut callers);
    let door = MemDoor::new(alloc, callers, failing);
    match added {
        Ok(()) => Ok(door),
        Err(error) => {
            drop(door);
            Err(error)
        }
    }
}

// Asks a door six times.
fn show_asks(rt: &HostRuntime, door: &mut MemDoor<Script>) -> anyhow::Result<()> {
    for _ in 0..6 {
        let answer = ask(rt.alloc(), door)?;
        let faults = door.faults();
        println!(rt; "door: {answer}, {faults} faults")?;
    }
    Ok(())
}

fn show_planned(rt: &HostRuntime) -> anyhow::Result<()> {
    let mut door = planned(rt.alloc())?;
    let shown = show_asks(rt, &mut door);
    drop(door);
    shown
}

// Asks a door so many times.
fn ask_times<D: Door>(rt: &HostRuntime, name: &str, door: &mut D, times: u8) -> anyhow::Result<()> {
    for _ in 0..times {
        let answer = ask(rt.alloc(), door)?;
        println!(rt; "{name}: {answer}")?;
    }
    Ok(())
}

fn show_sure(rt: &HostRuntime) -> anyhow::Result<()> {
    let mut callers = VecDeque::new(rt.alloc());
    callers.push_back(Some(content(rt.alloc(), "one", &[])?))?;
    let mut door = SureDoor::new(rt.alloc(), callers);
    let shown = ask_times(rt, "sure door", &mut door, 2);
    drop(door);
    shown
}

// Dials once, and sends a text.
fn called<D: Dial>(dial: &mut D, text: &str) -> bool {
    match dial.dial("ws://door/") {
        Ok(mut link) => {
            let sent = link.send(text).is_ok();
            dial.back(link);
            sent
        }
        Err(_) => false,
    }
}

// Dials once in another thread.
fn called_elsewhere<R: Threads + Wait + Copy + Drop + Send + 'static>(
    threads: R,
    dial: Option<DoorDial<R>>,
) -> Result<bool, AllocError> {
    let child = thread::spawn(&threads, move || match dial {
        Some(mut dial) => called(&mut dial, "one"),
        None => false,
    })?;
    Ok(child.join(&threads))
}

// Another thread dials and ends, then this one dials.
fn show_calls<R: Threads + Wait + Copy + Drop + Send + 'static>(
    rt: &HostRuntime,
    threads: R,
    door: &mut DialledDoor<R>,
    dials: &mut Vec<DoorDial<R>>,
) -> anyhow::Result<()> {
    ask_times(rt, "dialled door", door, 1)?;
    let first = called_elsewhere(threads, dials.pop())?;
    let second = match dials.last_mut() {
        Some(dial) => called(dial, "two"),
        None => false,
    };
    println!(rt; "dialled door: sent {first} and {second}")?;
    ask_times(rt, "dialled door", door, 3)
}

// Both dials end before the door is asked for the last time.
fn show_dialled<R: Threads + Wait + Copy + Drop + Send + 'static>(
    rt: &HostRuntime,
    threads: R,
) -> anyhow::Result<()> {
    let none = Vec::new(rt.alloc());
    let (mut door, mut dials) = DialledDoor::open(threads, rt.alloc(), 2, none)?;
    let shown = show_calls(rt, threads, &mut door, &mut dials);
    drop(dials);
    let ended = ask_times(rt, "dialled door", &mut door, 2);
    drop(door);
    shown?;
    ended
}

/// Shows doors whose callers are scripts, and one that two threads dial.
pub fn show<R: Threads + Wait + Copy + Drop + Send + 'static>(
    rt: &HostRuntime,
    threads: R,
) -> anyhow::Result<()> {
    show_planned(rt)?;
    show_sure(rt)?;
    show_dialled(rt, threads)
}
