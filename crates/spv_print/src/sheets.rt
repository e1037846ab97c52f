//! A text as far as its pieces are laid out.
ghost use Rattle.std.specs.Prelude.{◌≡◌, ◌+◌, ◌<◌, ◌≤◌, ◌^◌, false, OnOk};
ghost use Rattle.spv_print.specs.Layouts as spec;
ghost use Rattle.spv_print.specs.Pieces.{piece_end, pieces_end};

use crate::pieces::Piece;
use spv_base::NoMemory;
use std::alloc::Global;
use std::marker::Model;

/// How many leaves and empty lists are written of a value.
const MOST_LEAVES: u64 = 256;

/// Pieces, how many bits of the value they took, and how many leaves and empty lists may still be written.
#[derive(Drop)]
pub(crate) struct Sheet {
    pieces: Vec<Piece>,
    taken: u64,
    left: u64,
}

impl Model for Sheet {
    ghost use Rattle.spv_print.specs.Layouts.{Written};
    ghost use Rattle.spv_print.specs.Sheets.{IsSheet};

    ghost Value = { Written };

    ghost view = { λ s. record { pieces = s.pieces.items; taken = s.taken; left = s.left } };

    ghost invariant = { λ s. IsSheet (record { pieces = s.pieces.items; taken = s.taken; left = s.left }) };
}

impl Sheet {
    /// Nothing.
    pub(crate) fn new(alloc: Global) -> Sheet
        ensures { result ≡ spec.blank }
    {
        Sheet {
            pieces: Vec::new(alloc),
            taken: 0,
            left: MOST_LEAVES,
        }
    }

    /// The pieces.
    pub(crate) fn pieces(self) -> Vec<Piece>
        ensures pieces { result.items ≡ self.pieces }
        ensures few { pieces_end result.items < 2 ^ 64 }
    {
        self.pieces
    }

    /// How many bits they took.
    pub(crate) fn taken(&self) -> u64
        ensures { result ≡ self.now.taken }
    {
        self.taken
    }

    /// Whether no more leaves may be written.
    pub(crate) fn is_full(&self) -> bool
        ensures { result ≡ spec.is_full self.now }
    {
        self.left == 0
    }

    /// Puts a piece that is no leaf.
    pub(crate) fn put(&mut self, piece: Piece) -> Result<(), NoMemory>
        requires { piece_end piece ≡ 0 }
        ensures { OnOk result (self.new ≡ spec.put piece self.old) }
    {
        self.pieces.push(piece)?;
        Ok(())
    }

    /// Puts a leaf of so many bits, or the end of an empty list.
    pub(crate) fn put_leaf(&mut self, piece: Piece, size: u32) -> Result<(), NoMemory>
        requires room { spec.is_full self.old ≡ false }
        requires taken { piece_end piece ≤ self.old.taken + size }
        ensures { OnOk result (self.new ≡ spec.put_leaf piece size self.old) }
    {
        self.pieces.push(piece)?;
        self.taken += u64::from(size);
        self.left -= 1;
        Ok(())
    }

    /// Puts a value that isn't shown and has no bits.
    pub(crate) fn put_unavailable(&mut self) -> Result<(), NoMemory>
        requires { spec.is_full self.old ≡ false }
        ensures { OnOk result (self.new ≡ spec.put_unavailable self.old) }
    {
        self.put_leaf(Piece::Unavailable, 0)
    }

    /// Puts what stands before the element with a number.
    pub(crate) fn put_separator(&mut self, number: u64) -> Result<(), NoMemory>
        ensures { OnOk result (self.new ≡ spec.put_separator number self.old) }
    {
        if number > 0 {
            self.put(Piece::Separator)?;
        }
        Ok(())
    }

    /// Puts what stands in place of the elements from the one with a number on.
    pub(crate) fn put_rest(&mut self, number: u64) -> Result<(), NoMemory>
        ensures { OnOk result (self.new ≡ spec.put_rest number self.old) }
    {
        self.put_separator(number)?;
        self.put(Piece::Rest)
    }
}
