//! What masks the frames of an end.

use std::random::RandomSource;
use tungstenite::MaskKeys;
use tungstenite::protocol::RandomKeys;

/// The masking keys of an end. A server masks nothing.
#[derive(Clone, Copy, Debug)]
pub enum EndKeys<R> {
    /// A server's, which are never used.
    Unmasked,
    /// A client's.
    Random(RandomKeys<R>),
}

impl<R: RandomSource> MaskKeys for EndKeys<R> {
    fn next_key(&mut self) -> [u8; 4] {
        match self {
            EndKeys::Unmasked => [0; 4],
            EndKeys::Random(keys) => keys.next_key(),
        }
    }

    fn has_failed(&self) -> bool {
        match self {
            EndKeys::Unmasked => false,
            EndKeys::Random(keys) => keys.has_failed(),
        }
    }
}
