//! Shifts, undefined from the width on.
ghost use Rattle.std.specs.Prelude.{◌≡◌, ◌*◌, ◌/◌, ◌^◌, ◌<◌, nat_lt, pos};
ghost use Rattle.std.specs.Int.{int_div_euclid};
ghost use Rattle.spv_alu.specs.Integers.{IsWidth, signed};
ghost use Rattle.spv_alu.specs.Results.{integer, defined_if};

use crate::integers::signed;
use crate::results::{integer, signed_integer, undefined};
use spv_base::Cell;

/// A shift to the right that fills with zeros.
pub fn right_logical(x: u64, places: u64, width: u8) -> Cell
    requires { IsWidth width }
    ensures { result ≡ defined_if (nat_lt places width) (integer width (pos (x / 2 ^ places))) }
{
    if places < width as u64 {
        integer(x >> places, width)
    } else {
        undefined(width)
    }
}

/// A shift to the right that fills with the sign.
pub fn right_arithmetic(x: u64, places: u64, width: u8) -> Cell
    requires width { IsWidth width }
    requires x { x < 2 ^ width }
    ensures { result ≡ defined_if (nat_lt places width) (integer width (int_div_euclid (signed width x) (pos (2 ^ places)))) }
{
    if places < width as u64 {
        signed_integer(signed(x, width) >> places, width)
    } else {
        undefined(width)
    }
}

/// A shift to the left that fills with zeros.
pub fn left_logical(x: u64, places: u64, width: u8) -> Cell
    requires { IsWidth width }
    ensures { result ≡ defined_if (nat_lt places width) (integer width (pos (x * 2 ^ places))) }
{
    if places < width as u64 {
        integer(x << places, width)
    } else {
        undefined(width)
    }
}
