//! Numbers that are drawn from a seed.

use rand_core::utils::NextWord;
use rand_pcg::Pcg32;

/// The generator's stream, which is the same for all runs.
const STREAM: u64 = 0;

/// The numbers that a run draws, one after another. They are the same for the same seed.
#[derive(Drop)]
pub struct Draws {
    generator: Pcg32,
}

impl Draws {
    /// The numbers of a seed.
    pub fn new(seed: u64) -> Draws {
        Draws {
            generator: Pcg32::new(seed, STREAM),
        }
    }

    /// A number below this, or 0 where there is none.
    pub fn below(&mut self, count: u32) -> u32 {
        let word: u32 = self.generator.next_word();
        word.checked_rem(count).unwrap_or(0)
    }
}
