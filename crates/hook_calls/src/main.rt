//! Keeps three hooks, runs them over the dispatches of a session that is shown a guild, a channel
//! and three messages, and prints what is noted.
#![tactic(auto)]

mod dispatches;
mod rule;

use client_hooks::{Hook, Hooks, Kept, KindSet};
use dispatch_types::Dispatch;
use intent_set::Kind;
use rule::{MessageIds, message_id};
use std::alloc::AllocError;

// Keeps a hook. Out of memory drops it.
fn keep(
    hooks: &mut Hooks<MessageIds>,
    kinds: KindSet,
    hook: Kept<MessageIds>,
) -> Result<(), AllocError> {
    if hooks.is_full() {
        return Err(AllocError);
    }
    match hooks.on(kinds, hook) {
        Ok(()) => Ok(()),
        Err((_hook, error)) => Err(error),
    }
}

fn run_one(
    rt: &HostRuntime,
    hooks: &Hooks<MessageIds>,
    dispatch: &Dispatch,
    number: u64,
) -> anyhow::Result<()> {
    let kind = dispatch.kind();
    println!(rt; "{number} {kind}")?;
    for note in hooks.run(dispatch, number)?.as_slice() {
        let (hook, number, value) = (note.hook, note.number, note.value);
        println!(rt; "  hook {hook} at {number}: {value}")?;
    }
    Ok(())
}

fn run_all(
    rt: &HostRuntime,
    hooks: &Hooks<MessageIds>,
    dispatches: &[Dispatch],
) -> anyhow::Result<()> {
    let mut number = 0u64;
    for dispatch in dispatches {
        number = number.saturating_add(1);
        run_one(rt, hooks, dispatch, number)?;
    }
    Ok(())
}

fn main(rt: HostRuntime) -> anyhow::Result<()> {
    let alloc = rt.alloc();
    let dispatches = dispatches::session(alloc)?;
    let mut hooks = Hooks::new(alloc);
    let created: Hook = Box::new(alloc, |dispatch: &Dispatch| message_id(dispatch))?;
    keep(
        &mut hooks,
        KindSet::of(Kind::MessageCreate),
        Kept::new(created),
    )?;
    let ends: Hook = Box::new(alloc, |dispatch: &Dispatch| message_id(dispatch))?;
    let kinds = KindSet::of(Kind::Ready).with(Kind::ChannelUpdate);
    keep(&mut hooks, kinds, Kept::new(ends))?;
    let every: Hook = Box::new(alloc, |dispatch: &Dispatch| message_id(dispatch))?;
    keep(&mut hooks, KindSet::all(), Kept::new(every))?;
    run_all(&rt, &hooks, dispatches.as_slice())
}
