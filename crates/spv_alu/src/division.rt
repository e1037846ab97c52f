//! Quotients and remainders of integers.
ghost use Rattle.std.specs.Prelude.{◌≡◌, ◌/◌, ◌%◌, ◌^◌, ◌<◌, ◌==◌, not, pos, int_div, int_rem, is_some, IfSome};
ghost use Rattle.std.specs.Int.{w64, CanDivide};
ghost use Rattle.spv_alu.specs.Integers.{IsWidth, signed, int_mod};
ghost use Rattle.spv_alu.specs.Results.{integer, defined_if};
ghost use Rattle.spv_alu.specs.Binary.{has_quotient};

use crate::integers::{greatest, signed};
use crate::results::{integer, signed_integer, undefined};
use spv_base::Cell;

/// The quotient, undefined by 0.
pub fn quotient(x: u64, y: u64, width: u8) -> Cell
    requires { IsWidth width }
    ensures { result ≡ defined_if (not (y == 0)) (integer width (pos (x / y))) }
{
    if y == 0 {
        undefined(width)
    } else {
        integer(x / y, width)
    }
}

/// The remainder, undefined by 0.
pub fn remainder(x: u64, y: u64, width: u8) -> Cell
    requires { IsWidth width }
    ensures { result ≡ defined_if (not (y == 0)) (integer width (pos (x % y))) }
{
    if y == 0 {
        undefined(width)
    } else {
        integer(x % y, width)
    }
}

/// Whether integers, read as signed, have a quotient: not by 0, nor the least by minus one.
fn has_quotient(x: u64, y: u64, width: u8) -> bool
    requires { IsWidth width }
    ensures { result ≡ has_quotient width x y }
{
    y != 0 && !(x == 1 << (width - 1) && y == greatest(width))
}

/// The operands read as signed, where they have a quotient.
fn signed_operands(x: u64, y: u64, width: u8) -> Option<(i64, i64)>
    requires width { IsWidth width }
    requires x { x < 2 ^ width }
    requires y { y < 2 ^ width }
    ensures variant { is_some result ≡ has_quotient width x y }
    ensures value { IfSome result (λ p. (p.0 ≡ signed width x) × (p.1 ≡ signed width y)) }
    ensures divides { IfSome result (λ p. CanDivide w64 p.0 p.1) }
{
    if has_quotient(x, y, width) {
        Some((signed(x, width), signed(y, width)))
    } else {
        None
    }
}

/// The quotient of signed integers, rounded toward zero.
pub fn signed_quotient(x: u64, y: u64, width: u8) -> Cell
    requires width { IsWidth width }
    requires x { x < 2 ^ width }
    requires y { y < 2 ^ width }
    ensures { result ≡ defined_if (has_quotient width x y) (integer width (int_div (signed width x) (signed width y))) }
{
    match signed_operands(x, y, width) {
        Some((dividend, divisor)) => signed_integer(dividend / divisor, width),
        None => undefined(width),
    }
}

/// The remainder of signed integers that is 0 or has the sign of the first.
pub fn signed_remainder(x: u64, y: u64, width: u8) -> Cell
    requires width { IsWidth width }
    requires x { x < 2 ^ width }
    requires y { y < 2 ^ width }
    ensures { result ≡ defined_if (has_quotient width x y) (integer width (int_rem (signed width x) (signed width y))) }
{
    match signed_operands(x, y, width) {
        Some((dividend, divisor)) => signed_integer(dividend % divisor, width),
        None => undefined(width),
    }
}

/// The remainder of signed integers that is 0 or has the sign of the second.
pub fn signed_modulus(x: u64, y: u64, width: u8) -> Cell
    requires width { IsWidth width }
    requires x { x < 2 ^ width }
    requires y { y < 2 ^ width }
    ensures { result ≡ defined_if (has_quotient width x y) (integer width (int_mod (signed width x) (signed width y))) }
{
    match signed_operands(x, y, width) {
        Some((dividend, divisor)) => signed_integer(modulus(dividend, divisor), width),
        None => undefined(width),
    }
}

/// The remainder that is 0 or has the sign of the divisor.
fn modulus(dividend: i64, divisor: i64) -> i64
    requires { CanDivide w64 dividend divisor }
    ensures { result ≡ int_mod dividend divisor }
{
    let remainder = dividend.rem_euclid(divisor);
    if divisor < 0 && remainder != 0 {
        remainder + divisor
    } else {
        remainder
    }
}
