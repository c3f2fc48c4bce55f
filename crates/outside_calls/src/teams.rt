//! Spawners in memory and over threads.
ghost use Rattle.std.specs.Prelude.{◌≡◌};

use gate_outside::spawners::{Spawner, Task};
use std::thread::Threads;
use thread_outside::running::Running;
use thread_outside::serial_spawner::SerialSpawner;
use thread_outside::sure_spawner::SureSpawner;
use thread_outside::thread_team::ThreadTeam;

// Doubles a number.
#[derive(Drop)]
struct Doubling(u64);

impl Task for Doubling {
    ghost use Rattle.std.specs.Prelude.{◌≡◌, ◌*◌, ◌%◌, ◌^◌};

    type Done = u64;

    ghost gives = { λ t d. d ≡ 2 * t.0 % 2 ^ 64 };

    fn run(self) -> u64 {
        self.0.wrapping_mul(2)
    }
}

impl<R: Threads + Drop> Spawner<Doubling> for ThreadTeam<R> {
    type Held = Running<Doubling>;

    ghost task_of = { λ held. held };

    ghost starts = { λ t. t.starts };

    ghost faults = { λ t. t.faults };

    fn start(&mut self, task: Doubling) -> Result<Running<Doubling>, Doubling> {
        self.start_task(task)
    }

    fn finish(&mut self, held: Running<Doubling>) -> u64 {
        self.finish_task(held)
    }
}

// What a task gave that was started.
fn finished<S: Spawner<Doubling>>(team: &mut S, started: Result<S::Held, Doubling>) -> Option<u64> {
    match started {
        Ok(held) => Some(team.finish(held)),
        Err(_) => None,
    }
}

// Starts two tasks, and finishes the second first.
fn show_team<S: Spawner<Doubling>>(
    rt: &HostRuntime,
    name: &str,
    team: &mut S,
) -> anyhow::Result<()> {
    let first = team.start(Doubling(3));
    let second = team.start(Doubling(4));
    let second = finished(team, second);
    let first = finished(team, first);
    println!(rt; "{name}: {first:?} and {second:?}")?;
    Ok(())
}

/// Shows the three forms. The second start of one of them fails.
pub fn show<R: Threads + Drop>(rt: &HostRuntime, threads: R) -> anyhow::Result<()> {
    let mut serial = SerialSpawner::new([2].to_vec(rt.alloc())?);
    show_team(rt, "spawner", &mut serial)?;
    let faults = serial.faults();
    println!(rt; "spawner: {faults} faults")?;
    show_team(rt, "sure spawner", &mut SureSpawner::new())?;
    let mut team = ThreadTeam::new(threads, rt.alloc());
    show_team(rt, "team of threads", &mut team)?;
    let faults = team.faults();
    println!(rt; "team of threads: {faults} faults")?;
    Ok(())
}
