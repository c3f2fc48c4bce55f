//! Links in memory.

use crate::words::{heard, script};
use gate_outside::links::Link;
use std::alloc::AllocError;
use std::sync::Wait;
use std::thread;
use std::thread::Threads;
use thread_outside::lane_end::LaneEnd;
use thread_outside::mem_link::MemLink;
use thread_outside::script::Script;
use thread_outside::sure_link::SureLink;

// Hears a link so many times.
fn hear<L: Link>(rt: &HostRuntime, link: &mut L, times: u8) -> anyhow::Result<()> {
    for _ in 0..times {
        let heard = heard(rt.alloc(), link.recv())?;
        println!(rt; "link: {heard}")?;
    }
    Ok(())
}

// Sends and closes, and says what was answered.
fn speak<L: Link>(rt: &HostRuntime, link: &mut L) -> anyhow::Result<()> {
    let sent = link.send("hello");
    let closed = link.close(1000);
    println!(rt; "link: sent {sent:?}, closed {closed:?}")?;
    Ok(())
}

// What a link gave and was sent, and its faults.
fn show_counts(rt: &HostRuntime, link: &MemLink<Script>) -> anyhow::Result<()> {
    let (gave, sent, faults) = (link.gave().len(), link.sent().len(), link.faults());
    println!(rt; "link: gave {gave}, was sent {sent}, {faults} faults")?;
    Ok(())
}

fn show_planned(rt: &HostRuntime, link: &mut MemLink<Script>) -> anyhow::Result<()> {
    hear(rt, link, 5)?;
    speak(rt, link)?;
    hear(rt, link, 1)?;
    show_counts(rt, link)
}

// A script whose second call fails.
fn show_script(rt: &HostRuntime) -> anyhow::Result<()> {
    let failing = [2].to_vec(rt.alloc())?;
    let mut link = MemLink::new(rt.alloc(), script(rt.alloc(), "first")?, failing)?;
    let shown = show_planned(rt, &mut link);
    drop(link);
    shown
}

fn show_all_well(rt: &HostRuntime, link: &mut SureLink) -> anyhow::Result<()> {
    hear(rt, link, 2)?;
    speak(rt, link)?;
    let (gave, sent) = (link.gave().len(), link.sent().len());
    println!(rt; "link: gave {gave}, was sent {sent}")?;
    Ok(())
}

// The same, of which no call fails.
fn show_sure(rt: &HostRuntime) -> anyhow::Result<()> {
    let mut link = SureLink::new(rt.alloc(), script(rt.alloc(), "first")?)?;
    let shown = show_all_well(rt, &mut link);
    drop(link);
    shown
}

// Sends and closes in another thread.
fn speak_elsewhere<R: Threads + Wait + Copy + Drop + Send + 'static>(
    threads: R,
    far: MemLink<LaneEnd<R>>,
) -> Result<bool, AllocError> {
    let mut far = far;
    let child = thread::spawn(
        &threads,
        move || far.send("hello").is_ok() && far.close(1000).is_ok(),
    )?;
    Ok(child.join(&threads))
}

// Hears what the other thread sent.
fn show_end<R: Wait + Copy + Drop>(
    rt: &HostRuntime,
    near: &mut MemLink<LaneEnd<R>>,
    went: bool,
) -> anyhow::Result<()> {
    println!(rt; "link: the other thread's calls went well: {went}")?;
    hear(rt, near, 3)?;
    speak(rt, near)?;
    let faults = near.faults();
    println!(rt; "link: {faults} faults")?;
    Ok(())
}

// Two threads hold two ends.
fn show_pair<R: Threads + Wait + Copy + Drop + Send + 'static>(
    rt: &HostRuntime,
    threads: R,
) -> anyhow::Result<()> {
    let (mut near, far) = MemLink::pair(threads, rt.alloc())?;
    let first = hear(rt, &mut near, 1);
    let went = speak_elsewhere(threads, far);
    let shown = match went {
        Ok(went) => show_end(rt, &mut near, went),
        Err(error) => Err(error.into()),
    };
    drop(near);
    first?;
    shown
}

/// Shows a script and a pair.
pub fn show<R: Threads + Wait + Copy + Drop + Send + 'static>(
    rt: &HostRuntime,
    threads: R,
) -> anyhow::Result<()> {
    show_script(rt)?;
    show_sure(rt)?;
    show_pair(rt, threads)
}
