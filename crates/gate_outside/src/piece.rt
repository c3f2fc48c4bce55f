//! Reading in large pieces.
ghost use Rattle.std.specs.Prelude.{◌≡◌, ◌≤◌, [], true, length, IfOk, OnOk, OnErr};
ghost use Rattle.std.specs.Io.KnownBytes.{Keeps, Consumes, IsAtEnd};
ghost use Rattle.gate_outside.specs.Causes.{HasCause};

use crate::faults::Failed;
use crate::streams::Source;
use std::alloc::{AllocError, Global};
use std::marker::Model;

/// The most bytes of one piece.
pub const PIECE_BYTES: usize = 65536;

/// The bytes of the latest read, in room that is kept from one read to the next.
#[derive(Drop)]
pub struct Piece {
    room: Vec<u8>,
    count: usize,
}

impl Model for Piece {
    ghost use Rattle.std.specs.Prelude.{List, ℕ, ◌≡◌, ◌≤◌, take, length};
    ghost use Rattle.gate_outside.specs.declared.piece.TheConstants.{PIECE_BYTES};

    ghost Value = { List ℕ };

    ghost view = { λ p. take p.count p.room.items };

    ghost invariant = { λ p. (length p.room.items ≡ PIECE_BYTES) × (p.count ≤ length p.room.items) };
}

// Zeros, of which proofs see no more than the number.
fn zeros(alloc: Global, count: usize) -> Result<Vec<u8>, AllocError>
    ensures { IfOk result (λ v. length v.items ≡ count) }
{
    vec![in alloc; 0u8; count]
}

impl Piece {
    /// An empty piece with its room.
    pub fn new(alloc: Global) -> Result<Piece, AllocError>
        ensures { IfOk result (λ p. p ≡ []) }
    {
        Ok(Piece {
            room: zeros(alloc, PIECE_BYTES)?,
            count: 0,
        })
    }

    /// The bytes of the latest read.
    pub fn bytes(&self) -> &[u8]
        ensures { result.now ≡ self.now }
    {
        &self.room[..self.count]
    }

    /// Reads once. The piece is empty after it exactly at the end of input or after a fault.
    pub fn fill<S: Source>(&mut self, source: &mut S) -> Result<(), Failed>
        ensures bytes { OnOk result (Consumes (S.left source.old) (S.left source.new) self.new) }
        ensures end { OnOk result (self.new ≡ [] → IsAtEnd (S.left source.new)) }
        ensures found { OnOk result (self.new ≡ [] → S.ended source.new ≡ true) }
        ensures stays { S.ended source.old ≡ true → self.new ≡ [] }
        ensures room { length self.new ≤ PIECE_BYTES }
        ensures err { OnErr result (self.new ≡ []) }
        ensures keeps { OnErr result (Keeps (S.left source.old) (S.left source.new)) }
        ensures cause { HasCause (S.faults source.old) (S.faults source.new) result }
    {
        self.count = 0;
        self.count = source.read(self.room.as_mut_slice())?;
        Ok(())
    }
}
