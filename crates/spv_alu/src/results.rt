//! What an operation gives on one lane.
ghost use Rattle.std.specs.Prelude.{◌≡◌, ◌≤◌, pos};
ghost use Rattle.spv_base.specs.Cell.{undefined_cell};
ghost use Rattle.spv_alu.specs.Integers.{IsWidth};
ghost use Rattle.spv_alu.specs.Results.{integer, truth, defined_if};

use crate::integers::greatest;
use spv_base::Cell;

/// The integer of a width with these low-order bits.
pub fn integer(bits: u64, width: u8) -> Cell
    requires { IsWidth width }
    ensures { result ≡ integer width (pos bits) }
{
    Cell {
        bits: bits & greatest(width),
        width,
        defined: true,
    }
}

/// The low-order bits of a signed integer.
pub fn signed_integer(value: i64, width: u8) -> Cell
    requires { IsWidth width }
    ensures { result ≡ integer width value }
{
    integer(value.cast_unsigned(), width)
}

/// A Boolean.
pub fn truth(holds: bool) -> Cell
    ensures { result ≡ truth holds }
{
    Cell {
        bits: holds as u64,
        width: 1,
        defined: true,
    }
}

/// The undefined lane of a width.
pub fn undefined(width: u8) -> Cell
    requires { width ≤ 64 }
    ensures { result ≡ undefined_cell width }
{
    Cell {
        bits: 0,
        width,
        defined: false,
    }
}

/// The lane where the test holds, else the undefined one of its width.
pub fn defined_if(test: bool, lane: Cell) -> Cell
    ensures { result ≡ defined_if test lane }
{
    if test { lane } else { undefined(lane.width) }
}
