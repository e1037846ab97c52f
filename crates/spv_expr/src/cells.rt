//! The bits of values: those of their leaves in order, the lowest first.
ghost use Rattle.std.specs.Prelude.{◌≡◌, ◌+◌, ◌-◌, ◌<◌, ◌≤◌, ◌^◌, ℕ, ◌++◌, IfOk, IfSome, OnOk, length, map, slice_get};
ghost use Rattle.spv_base.specs.Bits.{cell_bits};
ghost use Rattle.spv_expr.specs.Bits as spec;
ghost use Rattle.spv_expr.specs.Rests.{ArePut, IsSettled};

use spv_base::{Cell, NoMemory};
use spv_dbg::Bit;
use std::alloc::Global;

/// A bit that no value has.
pub(crate) const UNBOUND: Bit = Bit {
    bound: false,
    defined: false,
    one: false,
};

/// A bit that is not defined.
const UNDEFINED: Bit = Bit {
    bound: true,
    defined: false,
    one: false,
};

/// How many bits a cell has: its width, and 32 where it is a Boolean.
#[tactic(auto, using(crate::proofs::CellLemmas::cell_count))]
fn bit_count(cell: Cell) -> u64
    ensures { result ≡ length (cell_bits cell) }
{
    if cell.width == 1 {
        32
    } else {
        u64::from(cell.width)
    }
}

/// How many bits a row has, where a `u64` counts them. There is no memory for more.
pub(crate) fn count_bits(cells: &[Cell]) -> Result<u64, NoMemory>
    ensures { IfOk result (λ count. count ≡ length (spec.bits_of cells.now)) }
{
    let mut count = 0u64;
    for cell in cells {
        let Some(more) = count.checked_add(bit_count(*cell)) else {
            return Err(NoMemory);
        };
        count = more;
    }
    Ok(count)
}

/// The bit of a cell with a number.
#[tactic(auto, using(crate::proofs::CellLemmas::bit_shown))]
fn cell_bit(cell: Cell, k: u64) -> Bit
    requires { k < length (cell_bits cell) }
    ensures { result ≡ spec.shown (cell_bits cell) k }
{
    if !cell.defined {
        return UNDEFINED;
    }
    Bit {
        bound: true,
        defined: true,
        one: (cell.bits >> k) % 2 == 1,
    }
}

/// What is left of a row, and a bit of it, counted from its first.
#[derive(Clone, Copy)]
pub(crate) struct Rest<'a> {
    pub(crate) cells: &'a [Cell],
    pub(crate) bit: u64,
}

/// The same bit, in the first cell of what is left, where there is such a bit.
fn settled<'a>(mut rest: Rest<'a>) -> Rest<'a>
    ensures same { (m : ℕ) → slice_get (spec.bits_of result.cells.now) (result.bit + m) ≡ slice_get (spec.bits_of rest.entry.cells.now) (rest.entry.bit + m) }
    ensures first { IsSettled result.cells.now result.bit }
    ensures lower { result.bit ≤ rest.entry.bit }
{
    'cells: while let [cell, more @ ..] = rest.cells {
        let count = bit_count(*cell);
        if rest.bit < count {
            return rest;
        }
        rest = Rest {
            cells: more,
            bit: rest.bit - count,
        };
    }
    rest
}

/// That bit.
fn bit_at(rest: Rest<'_>) -> Bit
    requires { IsSettled rest.cells.now rest.bit }
    ensures { result ≡ spec.shown (spec.bits_of rest.entry.cells.now) rest.entry.bit }
{
    match rest.cells {
        [cell, ..] => cell_bit(*cell, rest.bit),
        [] => UNBOUND,
    }
}

/// Bits that lie in one cell: the cell, and the number of the first of them there.
#[derive(Clone, Copy)]
pub struct InCell {
    pub cell: Cell,
    pub bit: u64,
}

/// Where so many bits from one on lie, if one cell has them all.
pub(crate) fn in_cell(rest: Rest<'_>, count: u64) -> Option<InCell>
    ensures { IfSome result (λ found. (j : ℕ) → j < count → spec.shown (spec.bits_of rest.entry.cells.now) (rest.entry.bit + j) ≡ spec.shown (cell_bits found.cell) (found.bit + j)) }
{
    let rest = settled(rest);
    let [cell, ..] = rest.cells else {
        return None;
    };
    if bit_count(*cell) - rest.bit < count {
        return None;
    }
    Some(InCell {
        cell: *cell,
        bit: rest.bit,
    })
}

/// Puts the bits of a row from one on into a slice, from a place to before another one. Bits that the row doesn't have are unbound.
pub(crate) fn put_bits(cells: &[Cell], from: u64, bits: &mut [Bit], at: usize, end: usize)
    requires places { at ≤ end }
    requires within { end ≤ length bits.old }
    requires fits { from + (end - at) < 2 ^ 64 }
    ensures { ArePut cells.now from bits.old at end bits.new }
{
    let mut rest = Rest { cells, bit: from };
    'bits: for n in at..end {
        rest = settled(rest);
        bits[n] = bit_at(rest);
        rest.bit += 1;
    }
}

/// The bits of a cell.
fn push_cell(cell: Cell, bits: &mut Vec<Bit>) -> Result<(), NoMemory>
    ensures { OnOk result (bits.new.items ≡ bits.old.items ++ map spec.bound (cell_bits cell)) }
{
    for k in 0..bit_count(cell) {
        bits.push(cell_bit(cell, k))?;
    }
    Ok(())
}

/// All bits of a row.
pub(crate) fn all_bits(alloc: Global, cells: &[Cell]) -> Result<Vec<Bit>, NoMemory>
    ensures { IfOk result (λ bits. bits.items ≡ map spec.bound (spec.bits_of cells.now)) }
{
    let mut bits = Vec::new(alloc);
    for cell in cells {
        push_cell(*cell, &mut bits)?;
    }
    Ok(bits)
}
