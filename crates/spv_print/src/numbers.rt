//! The texts of numbers that have some bits, by the Encoding of their TypeBasic.
ghost use Rattle.std.specs.Prelude.{◌≡◌, ◌++◌, ◌<◌, ◌≤◌, ◌^◌, OnOk};
ghost use Rattle.std.specs.Fmt.{signed_decimal};
ghost use Rattle.spv_alu.specs.Integers as integers;
ghost use Rattle.spv_print.specs.Numbers as spec;

use crate::leaves::{BOOLEAN, FLOAT, Leaf};
use spv_alu::integers::signed;
use spv_base::NoMemory;
use spv_line::push_number;
use std::alloc::Global;

/// The text of a Boolean.
fn boolean_text(number: u64) -> &'static [u8]
    ensures { result.now ≡ spec.boolean_text number }
{
    if number == 0 { b"false" } else { b"true" }
}

/// The hexadecimal digit of a number.
fn hex_digit(n: u8) -> u8
    requires { n < 16 }
    ensures { result ≡ spec.hex_digit n }
{
    if n < 10 { b'0' + n } else { b'a' + (n - 10) }
}

/// Appends the lowest so many hexadecimal digits of a number.
fn push_hex(text: &mut Vec<u8>, count: u32, number: u64) -> Result<(), NoMemory>
    requires { count ≤ 16 }
    ensures { OnOk result (text.new.items ≡ text.old.items ++ spec.hex_digits count number) }
{
    let mut left = count;
    'digits: while left > 0 {
        left -= 1;
        text.push(hex_digit(((number >> (4 * left)) % 16) as u8))?;
    }
    Ok(())
}

/// Appends the hexadecimal digits of so many bits.
fn push_float(text: &mut Vec<u8>, size: u32, number: u64) -> Result<(), NoMemory>
    requires { size ≤ 64 }
    ensures { OnOk result (text.new.items ≡ text.old.items ++ spec.float_text size number) }
{
    text.extend_from_slice(b"0x")?;
    push_hex(text, (size + 3) / 4, number)
}

/// Appends the integer that so many bits stand for where they are read as signed.
fn push_signed(alloc: Global, text: &mut Vec<u8>, size: u32, number: u64) -> Result<(), NoMemory>
    requires width { integers.IsWidth size }
    requires fits { number < 2 ^ size }
    ensures { OnOk result (text.new.items ≡ text.old.items ++ signed_decimal (integers.signed size number)) }
{
    let number = signed(number, size as u8);
    text.extend_from_slice(number.to_string(alloc)?.as_bytes())?;
    Ok(())
}

/// Appends the number of a leaf in decimal.
pub(crate) fn push_decimal(
    alloc: Global,
    text: &mut Vec<u8>,
    leaf: Leaf,
    number: u64,
) -> Result<(), NoMemory>
    requires width { integers.IsWidth leaf.size }
    requires fits { number < 2 ^ leaf.size }
    ensures { OnOk result (text.new.items ≡ text.old.items ++ spec.decimal_text leaf number) }
{
    if leaf.is_signed() {
        push_signed(alloc, text, leaf.size, number)
    } else {
        push_number(alloc, text, number)
    }
}

/// Appends the number of a leaf by its Encoding.
pub(crate) fn push_basic(
    alloc: Global,
    text: &mut Vec<u8>,
    leaf: Leaf,
    number: u64,
) -> Result<(), NoMemory>
    requires width { integers.IsWidth leaf.size }
    requires fits { number < 2 ^ leaf.size }
    ensures { OnOk result (text.new.items ≡ text.old.items ++ spec.basic_text leaf number) }
{
    match leaf.encoding {
        BOOLEAN => Ok(text.extend_from_slice(boolean_text(number))?),
        FLOAT => push_float(text, leaf.size, number),
        _ => push_decimal(alloc, text, leaf, number),
    }
}
