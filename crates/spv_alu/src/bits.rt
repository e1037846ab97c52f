//! Single bits of an integer.
ghost use Rattle.std.specs.Prelude.{◌≡◌, ◌-◌, ◌^◌, ◌<◌, pos, count_ones};
ghost use Rattle.std.specs.Int.{bit_at};
ghost use Rattle.spv_alu.specs.Integers.{IsWidth, number_of_bits};
ghost use Rattle.spv_alu.specs.Results.{integer};

use crate::integers::greatest;
use crate::results::integer;
use spv_base::Cell;

/// Each bit turned over.
pub fn complement(x: u64, width: u8) -> Cell
    requires width { IsWidth width }
    requires x { x < 2 ^ width }
    ensures { result ≡ integer width (pos (2 ^ width - 1 - x)) }
{
    integer(greatest(width) - x, width)
}

/// The bits in the opposite order.
pub fn reversed(x: u64, width: u8) -> Cell
    requires { IsWidth width }
    ensures { result ≡ integer width (pos (number_of_bits width (λ i. bit_at x (width - 1 - i)))) }
{
    integer(x.reverse_bits() >> (64 - width), width)
}

/// How many bits are 1.
pub fn count(x: u64, width: u8) -> Cell
    requires { IsWidth width }
    ensures { result ≡ integer width (pos (count_ones x)) }
{
    integer(x.count_ones() as u64, width)
}
