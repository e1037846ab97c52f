//! Sums, differences and products, modulo 2 ^ width.
ghost use Rattle.std.specs.Prelude.{◌≡◌, ◌+◌, ◌*◌, ◌/◌, ◌^◌, ◌<◌, pos, ◌+ℤ◌, ◌-ℤ◌, ◌*ℤ◌};
ghost use Rattle.std.specs.Int.{int_div_euclid};
ghost use Rattle.spv_alu.specs.Integers.{IsWidth, signed};
ghost use Rattle.spv_alu.specs.Results.{integer};

use crate::integers::{greatest, signed};
use crate::results::integer;
use spv_base::Cell;

/// The low-order bits of the sum.
pub fn sum(x: u64, y: u64, width: u8) -> Cell
    requires { IsWidth width }
    ensures { result ≡ integer width (pos x +ℤ pos y) }
{
    integer(x.wrapping_add(y), width)
}

/// The low-order bits of the difference.
pub fn difference(x: u64, y: u64, width: u8) -> Cell
    requires { IsWidth width }
    ensures { result ≡ integer width (pos x -ℤ pos y) }
{
    integer(x.wrapping_sub(y), width)
}

/// The low-order bits of the product.
pub fn product(x: u64, y: u64, width: u8) -> Cell
    requires { IsWidth width }
    ensures { result ≡ integer width (pos x *ℤ pos y) }
{
    integer(x.wrapping_mul(y), width)
}

/// The carry of the sum: 1 where it doesn't fit the width, else 0.
pub fn carry(x: u64, y: u64, width: u8) -> Cell
    requires width { IsWidth width }
    requires x { x < 2 ^ width }
    requires y { y < 2 ^ width }
    ensures { result ≡ integer width (pos ((x + y) / 2 ^ width)) }
{
    let carries = x > greatest(width) - y;
    integer(carries as u64, width)
}

/// The part of the product above its low-order bits.
pub fn high_product(x: u64, y: u64, width: u8) -> Cell
    requires width { IsWidth width }
    requires x { x < 2 ^ width }
    requires y { y < 2 ^ width }
    ensures { result ≡ integer width (pos (x * y / 2 ^ width)) }
{
    let product = x as u128 * y as u128;
    integer((product >> width) as u64, width)
}

/// The low-order bits of the product of signed integers, and the part above them.
pub fn signed_products(x: u64, y: u64, width: u8) -> (Cell, Cell)
    requires width { IsWidth width }
    requires x { x < 2 ^ width }
    requires y { y < 2 ^ width }
    ensures low { result.0 ≡ integer width (signed width x *ℤ signed width y) }
    ensures high { result.1 ≡ integer width (int_div_euclid (signed width x *ℤ signed width y) (pos (2 ^ width))) }
{
    let product = signed(x, width) as i128 * signed(y, width) as i128;
    (
        wide_integer(product, width),
        wide_integer(product >> width, width),
    )
}

/// The low-order bits of an integer of 128 bits.
fn wide_integer(value: i128, width: u8) -> Cell
    requires { IsWidth width }
    ensures { result ≡ integer width value }
{
    let bits = value.cast_unsigned() & greatest(width) as u128;
    integer(bits as u64, width)
}
