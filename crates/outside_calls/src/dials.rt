//! Dials in memory.

use crate::words::{content, heard};
use gate_outside::dials::Dial;
use gate_outside::links::Link;
use std::alloc::{AllocError, Global};
use std::collections::VecDeque;
use thread_outside::link_content::LinkContent;
use thread_outside::mem_dial::MemDial;
use thread_outside::script::Script;

/// What a dial of a URL gives. A link is heard once and goes back.
pub fn dialled<D: Dial>(alloc: Global, dial: &mut D, url: &str) -> Result<String, AllocError> {
    match dial.dial(url) {
        Ok(mut link) => {
            let heard = heard(alloc, link.recv());
            dial.back(link);
            heard
        }
        Err(fault) => format!(in alloc; "{fault:?}"),
    }
}

// Two ends, of which the second fails at once.
fn add_ends(alloc: Global, ends: &mut VecDeque<LinkContent<Script>>) -> Result<(), AllocError> {
    ends.push_back(content(alloc, "one", &[])?)?;
    ends.push_back(content(alloc, "two", &[1])?)?;
    Ok(())
}

// A dial to these ends. Its first call fails.
fn planned(alloc: Global) -> Result<MemDial<Script>, AllocError> {
    let failing = [1].to_vec(alloc)?;
    let mut ends = VecDeque::new(alloc);
    let added = add_ends(alloc, &mut ends);
    let dial = MemDial::new(alloc, ends, failing);
    match added {
        Ok(()) => Ok(dial),
        Err(error) => {
            drop(dial);
            Err(error)
        }
    }
}

// Dials four times.
fn show_dials(rt: &HostRuntime, dial: &mut MemDial<Script>) -> anyhow::Result<()> {
    for url in ["ws://a/", "ws://b/", "ws://c/", "ws://d/"] {
        let answer = dialled(rt.alloc(), dial, url)?;
        let (urls, dry_run) = (dial.urls().len(), dial.dry_run());
        println!(rt; "dial: {answer}, {urls} URLs, a dry run of {dry_run}")?;
    }
    Ok(())
}

/// Shows a dial and its dry run.
pub fn show(rt: &HostRuntime) -> anyhow::Result<()> {
    let mut dial = planned(rt.alloc())?;
    let shown = show_dials(rt, &mut dial);
    drop(dial);
    shown
}
