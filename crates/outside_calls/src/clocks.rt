//! Clocks in memory and of the machine.

use gate_outside::clocks::Clock;
use gate_outside::machine_clock::MachineClock;
use gate_outside::mem_clock::MemClock;

fn show_moments(rt: &HostRuntime) -> anyhow::Result<()> {
    let mut clock = MemClock::new([3, 5, 5, 9].to_vec(rt.alloc())?);
    for _ in 0..6 {
        let now = clock.now_ms();
        clock.pause();
        let answers = clock.answers();
        println!(rt; "clock: {now}, {answers} answers")?;
    }
    Ok(())
}

// Two pauses of a millisecond each.
fn show_machine(rt: &HostRuntime) -> anyhow::Result<()> {
    let mut clock = MachineClock::new(*rt);
    let before = clock.now_ms();
    clock.pause();
    clock.pause();
    let is_later = clock.now_ms() > before;
    println!(rt; "the machine's clock: later after a pause: {is_later}")?;
    Ok(())
}

/// Shows both forms.
pub fn show(rt: &HostRuntime) -> anyhow::Result<()> {
    show_moments(rt)?;
    show_machine(rt)
}
