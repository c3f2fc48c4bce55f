//! Calls what stands between a program and the outside, in memory and over the system, and prints
//! what each call answers.
#![tactic(auto)]

mod clocks;
mod dials;
mod doors;
mod houses;
mod links;
mod notes;
mod streams;
mod teams;
mod words;

fn main(rt: HostRuntime) -> anyhow::Result<()> {
    streams::show(&rt)?;
    houses::show(&rt)?;
    links::show(&rt, rt)?;
    doors::show(&rt, rt)?;
    dials::show(&rt)?;
    clocks::show(&rt)?;
    teams::show(&rt, rt)?;
    notes::show(&rt)?;
    Ok(())
}
