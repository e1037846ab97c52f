//! A text as far as it is written, from the row of a value.
ghost use Rattle.std.specs.Prelude.{◌≡◌, OnOk, codes, decimal};
ghost use Rattle.spv_show.specs.Lists.{separator};
ghost use Rattle.spv_show.specs.Scalars.{unavailable};
ghost use Rattle.spv_show.specs.Sheets.{blank, is_full, put, put_cell, put_leaf, put_rest};

use crate::scalars::{Reading, push_scalar};
use spv_base::{Cell, NoMemory};
use spv_line::push_number;
use std::alloc::Global;
use std::marker::Model;

/// How many leaves and empty lists are written of a value.
const MOST_LEAVES: u64 = 256;

/// What stands before the element with a number.
fn separator(number: usize) -> &'static [u8]
    ensures { result.now ≡ separator number }
{
    if number == 0 { b"" } else { b", " }
}

/// A text, how many cells of the row are written in it, and how many leaves and empty lists may still be.
#[derive(Drop)]
pub struct Sheet {
    alloc: Global,
    text: Vec<u8>,
    taken: usize,
    left: u64,
}

impl Model for Sheet {
    ghost use Rattle.spv_show.specs.Sheets.{Written};

    ghost Value = { Written };

    ghost view = { λ s. record { text = s.text.items; taken = s.taken; left = s.left } };
}

impl Sheet {
    /// Nothing.
    pub fn new(alloc: Global) -> Sheet
        ensures { result ≡ blank }
    {
        Sheet {
            alloc,
            text: Vec::new(alloc),
            taken: 0,
            left: MOST_LEAVES,
        }
    }

    /// The text.
    pub fn text(&self) -> &[u8]
        ensures { result.now ≡ self.now.text }
    {
        self.text.as_slice()
    }

    /// Whether no more leaves may be written.
    pub fn is_full(&self) -> bool
        ensures { result ≡ is_full self.now }
    {
        self.left == 0
    }

    /// Writes a text that is no leaf.
    pub fn put(&mut self, text: &[u8]) -> Result<(), NoMemory>
        ensures { OnOk result (self.new ≡ put text.now self.old) }
    {
        self.text.extend_from_slice(text)?;
        Ok(())
    }

    /// Writes a number that is no leaf.
    pub fn put_number(&mut self, number: usize) -> Result<(), NoMemory>
        ensures { OnOk result (self.new ≡ put (decimal number) self.old) }
    {
        push_number(self.alloc, &mut self.text, number as u64)?;
        Ok(())
    }

    /// Writes what stands before the element with a number.
    pub fn put_separator(&mut self, number: usize) -> Result<(), NoMemory>
        ensures { OnOk result (self.new ≡ put (separator number) self.old) }
    {
        self.put(separator(number))
    }

    /// Writes what stands in place of the elements from the one with a number on.
    pub fn put_rest(&mut self, number: usize) -> Result<(), NoMemory>
        ensures { OnOk result (self.new ≡ put_rest number self.old) }
    {
        self.put_separator(number)?;
        self.put(b"...")
    }

    /// Writes what stands before the member with a number.
    pub fn put_name(&mut self, number: usize) -> Result<(), NoMemory>
        ensures { OnOk result (self.new ≡ put (codes " = ") (put (decimal number) self.old)) }
    {
        self.put_number(number)?;
        self.put(b" = ")
    }

    /// Writes a leaf or an empty list.
    pub fn put_leaf(&mut self, text: &[u8]) -> Result<(), NoMemory>
        ensures { OnOk result (self.new ≡ put_leaf text.now self.old) }
    {
        self.text.extend_from_slice(text)?;
        self.left = self.left.saturating_sub(1);
        Ok(())
    }

    /// Writes what stands where there is no value of a type.
    pub fn put_unavailable(&mut self) -> Result<(), NoMemory>
        ensures { OnOk result (self.new ≡ put_leaf unavailable self.old) }
    {
        self.put_leaf(b"<unavailable>")
    }

    /// Writes the next of some cells.
    pub fn put_cell(&mut self, cells: &[Cell], reading: Reading) -> Result<(), NoMemory>
        ensures { OnOk result (self.new ≡ put_cell cells.now reading self.old) }
    {
        let taken = self.taken;
        if taken >= cells.len() {
            return self.put_unavailable();
        }
        push_scalar(self.alloc, &mut self.text, &cells[taken], reading)?;
        self.taken = taken + 1;
        self.left = self.left.saturating_sub(1);
        Ok(())
    }
}
