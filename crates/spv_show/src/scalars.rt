//! The text of a scalar.
ghost use Rattle.std.specs.Prelude.{◌≡◌, ◌++◌, OnOk};
ghost use Rattle.std.specs.Fmt.{signed_decimal};
ghost use Rattle.spv_alu.specs.Integers.{signed};
ghost use Rattle.spv_show.specs.Scalars.{boolean_text, reading_of, scalar_text};

use spv_alu::integers::{is_width, signed};
use spv_base::{Cell, NoMemory};
use spv_line::push_number;
use std::alloc::Global;

/// How the bits of a scalar are read, by its type.
#[derive(Clone, Copy)]
pub enum Reading {
    Boolean,
    Unsigned,
    Signed,
}

/// How the bits of an integer are read, by the Signedness of its type: 1 is signed, and 0 is not (SPIR-V 1.6 section 3.42.6,
/// OpTypeInt).
pub fn reading_of(sign: u32) -> Reading
    ensures { result ≡ reading_of sign }
{
    if sign == 1 {
        Reading::Signed
    } else {
        Reading::Unsigned
    }
}

/// Appends the integer that bits stand for where they are read as signed.
fn push_signed(alloc: Global, text: &mut Vec<u8>, cell: &Cell) -> Result<(), NoMemory>
    ensures { OnOk result (text.new.items ≡ text.old.items ++ signed_decimal (signed cell.now.width cell.now.bits)) }
{
    // Without bits it is 0, signed or not.
    if !is_width(cell.width) {
        return push_number(alloc, text, cell.bits);
    }
    let number = signed(cell.bits, cell.width);
    text.extend_from_slice(number.to_string(alloc)?.as_bytes())?;
    Ok(())
}

/// The text of a Boolean.
fn boolean_text(bits: u64) -> &'static [u8]
    ensures { result.now ≡ boolean_text bits }
{
    if bits == 0 { b"false" } else { b"true" }
}

/// Appends the text of a scalar.
pub fn push_scalar(
    alloc: Global,
    text: &mut Vec<u8>,
    cell: &Cell,
    reading: Reading,
) -> Result<(), NoMemory>
    ensures { OnOk result (text.new.items ≡ text.old.items ++ scalar_text reading cell.now) }
{
    if !cell.defined {
        text.extend_from_slice(b"<undefined>")?;
        return Ok(());
    }
    match reading {
        Reading::Boolean => Ok(text.extend_from_slice(boolean_text(cell.bits))?),
        Reading::Unsigned => push_number(alloc, text, cell.bits),
        Reading::Signed => push_signed(alloc, text, cell),
    }
}
