//! A bell: a thread that finds nothing to do rests at it until another thread rings.
#![tactic(auto)]

use std::hint::spin_loop;
use std::sync::Wait;
use std::sync::atomic::{AtomicBool, AtomicU64, Ordering};
use std::time::Duration;

/// How often a thread that begins to rest looks for a ring before it sleeps: for some five microseconds, which
/// is about what it takes to sleep and to be woken.
const LOOKS: u64 = 100;

/// A bell, which threads share by reference. A thread hears how often it was rung, looks for work, and
/// where it finds none rests from there: a ring after it heard is never missed.
#[derive(Drop)]
pub struct Bell {
    rings: AtomicU64,
    /// Whether a thread may sleep that no ring has woken.
    resting: AtomicBool,
    /// How often it was rung when a thread last slept its whole time.
    slept: AtomicU64,
}

impl Bell {
    /// A bell that was never rung.
    pub fn new() -> Bell {
        Bell {
            rings: AtomicU64::new(0),
            resting: AtomicBool::new(false),
            slept: AtomicU64::new(0),
        }
    }

    /// How often it was rung.
    pub fn heard(&self) -> u64 {
        self.rings.load(Ordering::SeqCst)
    }

    /// Rings, which wakes all that rest. It calls the system only if some may sleep whom no ring before it
    /// has woken. It does not wait.
    pub fn ring(&self) {
        self.rings.fetch_add(1, Ordering::SeqCst);
        if self.resting.load(Ordering::SeqCst) && self.resting.swap(false, Ordering::SeqCst) {
            self.rings.wake_all();
        }
    }

    // Whether it is rung within a moment. Where nothing was rung since a thread slept its whole time, nothing
    // is expected, and it does not look.
    fn is_rung_soon(&self, heard: u64) -> bool {
        if self.slept.load(Ordering::SeqCst) == heard {
            return false;
        }
        for _ in 0..LOOKS {
            if self.heard() != heard {
                return true;
            }
            spin_loop();
        }
        false
    }

    /// Rests until it is rung, or so much time is over. If it was rung since it was heard so often, the
    /// call returns at once. It may also return for no reason. While rings follow one another closely it looks
    /// for the next before it sleeps.
    pub fn rest<R: Wait>(&self, rt: &R, heard: u64, most: Duration) {
        if self.is_rung_soon(heard) {
            return;
        }
        self.resting.store(true, Ordering::SeqCst);
        self.rings.park_timeout(rt, low_half(heard), most);
        if self.heard() == heard {
            self.slept.store(heard, Ordering::SeqCst);
        }
    }
}

// The low 32 bits, by which the system compares.
fn low_half(count: u64) -> u32 {
    (count % (1 << 32)) as u32
}
