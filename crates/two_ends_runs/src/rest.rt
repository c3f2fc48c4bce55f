//! What still arrives at an end of a connection that was cut.

use crate::draws::Draws;
use gate_outside::incoming::Incoming;
use std::alloc::{AllocError, Global};
use std::collections::VecDeque;

/// What still arrives at an end, in order.
#[derive(Drop)]
pub struct Rest {
    incoming: VecDeque<Incoming>,
}

impl Rest {
    /// Nothing.
    pub fn none(alloc: Global) -> Rest {
        Rest {
            incoming: VecDeque::new(alloc),
        }
    }

    /// Adds what comes last.
    pub fn push(&mut self, incoming: Incoming) -> Result<(), AllocError> {
        self.incoming.push_back(incoming)?;
        Ok(())
    }

    /// Takes what comes first.
    pub fn next(&mut self) -> Incoming {
        self.incoming.pop_front().unwrap_or(Incoming::NotYet)
    }

    /// Loses all but a front that is drawn. How many texts these were.
    pub fn lose_some(&mut self, draws: &mut Draws) -> u64 {
        let most = u32::try_from(self.incoming.len()).unwrap_or(u32::MAX);
        let count = draws.below(most.saturating_add(1));
        self.lose(count as usize)
    }

    /// Loses all. How many texts these were.
    pub fn lose_all(&mut self) -> u64 {
        let count = self.incoming.len();
        self.lose(count)
    }

    // Loses so many from the end, and counts the texts among them.
    fn lose(&mut self, count: usize) -> u64 {
        let mut texts: u64 = 0;
        for _ in 0..count {
            if let Some(Incoming::Text(_)) = self.incoming.pop_back() {
                texts = texts.saturating_add(1);
            }
        }
        texts
    }
}
