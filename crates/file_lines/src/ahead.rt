//! Bytes that were read ahead.
ghost use Rattle.std.specs.Prelude.{◌≡◌, ◌≤◌, ◌-◌, [], drop, length, IfOk, OnOk, OnErr};
ghost use Rattle.std.specs.Io.KnownBytes.{Keeps, Consumes, IsAtEnd};
ghost use Rattle.gate_outside.specs.Causes.{HasCause};
ghost use Rattle.gate_outside.specs.declared.piece.TheConstants.{PIECE_BYTES};

use gate_outside::faults::Failed;
use gate_outside::piece::Piece;
use gate_outside::streams::Source;
use std::alloc::{AllocError, Global};
use std::marker::Model;

/// The bytes of the latest read, without those of the lines before.
#[derive(Drop)]
pub struct Ahead {
    piece: Piece,
    at: usize,
}

impl Model for Ahead {
    ghost use Rattle.std.specs.Prelude.{List, ℕ, ◌≤◌, drop, length};

    ghost Value = { List ℕ };

    ghost view = { λ a. drop a.at a.piece };

    ghost invariant = { λ a. a.at ≤ length a.piece };
}

impl Ahead {
    /// No byte, with room for a read.
    pub fn new(alloc: Global) -> Result<Ahead, AllocError>
        ensures { IfOk result (λ a. a ≡ []) }
    {
        Ok(Ahead {
            piece: Piece::new(alloc)?,
            at: 0,
        })
    }

    /// The bytes.
    pub fn bytes(&self) -> &[u8]
        ensures { result.now ≡ self.now }
    {
        &self.piece.bytes()[self.at..]
    }

    /// Keeps the last bytes, as many as said.
    pub fn keep_last(&mut self, count: usize)
        requires { count ≤ length self.old }
        ensures { self.new ≡ drop (length self.old - count) self.old }
    {
        self.at = self.piece.bytes().len() - count;
    }

    /// Reads once. No byte is there after it exactly at the end of input or after a fault.
    pub fn fill<S: Source>(&mut self, source: &mut S) -> Result<(), Failed>
        ensures bytes { OnOk result (Consumes (S.left source.old) (S.left source.new) self.new) }
        ensures end { OnOk result (self.new ≡ [] → IsAtEnd (S.left source.new)) }
        ensures room { length self.new ≤ PIECE_BYTES }
        ensures err { OnErr result (self.new ≡ []) }
        ensures keeps { OnErr result (Keeps (S.left source.old) (S.left source.new)) }
        ensures cause { HasCause (S.faults source.old) (S.faults source.new) result }
    {
        self.at = 0;
        self.piece.fill(source)
    }
}
