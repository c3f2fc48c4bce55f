//! Plays 1,000 runs of a worker and a client over memory links with random drops, and says how they end.
//!
//! It prints a line for each hundred runs, and one for all.
#![tactic(auto)]

mod client_steps;
mod connection;
mod counts;
mod draws;
mod log;
mod pair;
mod rest;
mod run;
mod script;
mod texts;
mod two_ends;
mod verdict;
mod worker_end;

use counts::Counts;
use std::sync::Wait;

/// How many runs make a line.
const RUNS_OF_LINE: u64 = 100;

/// How many lines there are.
const LINES: u64 = 10;

fn print(rt: &HostRuntime, name: &str, counts: &Counts) -> anyhow::Result<()> {
    let told = counts.told(rt.alloc())?;
    println!(rt; "{name}: {told}")?;
    Ok(())
}

// Plays a run, and prints its seed if it ends wrong.
fn play<R: Wait + Copy + Drop>(rt: &HostRuntime, wait: R, seed: u64) -> anyhow::Result<Counts> {
    let counts = run::play_run(wait, rt.alloc(), seed)?;
    if counts.right == 0 {
        println!(rt; "run {seed} has ended wrong")?;
    }
    Ok(counts)
}

fn play_line<R: Wait + Copy + Drop>(
    rt: &HostRuntime,
    wait: R,
    line: u64,
) -> anyhow::Result<Counts> {
    let mut counts = Counts::none();
    for run in 0..RUNS_OF_LINE {
        let seed = line
            .saturating_mul(RUNS_OF_LINE)
            .saturating_add(run)
            .saturating_add(1);
        counts.add(&play(rt, wait, seed)?);
    }
    let last = line.saturating_add(1).saturating_mul(RUNS_OF_LINE);
    let name = format!(in rt.alloc(); "to run {last}")?;
    print(rt, name.as_str(), &counts)?;
    Ok(counts)
}

fn main(rt: HostRuntime) -> anyhow::Result<()> {
    let mut counts = Counts::none();
    for line in 0..LINES {
        counts.add(&play_line(&rt, rt, line)?);
    }
    print(&rt, "in all", &counts)
}
