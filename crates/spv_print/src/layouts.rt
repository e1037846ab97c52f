//! The text of a value by its debug type.
ghost use Rattle.std.specs.Prelude.{◌≡◌, ◌++◌, ◌<◌, ◌^◌, ℕ, IfOk, OnErr, OnOk, length, max};
ghost use Rattle.spv_parts.specs.Kept.{kept_part};
ghost use Rattle.spv_print.specs.Layouts as spec;
ghost use Rattle.spv_print.specs.Leaves.{Bits, bits_in};
ghost use Rattle.spv_print.specs.Pieces.{pieces_end, text_of};

use crate::pieces::{Piece, Source};
use crate::sheets::Sheet;
use crate::writers::Writer;
use spv_base::NoMemory;
use spv_dbg::{Bit, DebugTables};
use spv_parts::TypePart;
use std::alloc::Global;
use std::marker::Model;

/// How deep types are nested.
const MOST_NESTED: u32 = 64;

/// The text of a value, laid out before its bits are known. Contracts see its pieces.
#[derive(Drop)]
pub struct Layout {
    pieces: Vec<Piece>,
    /// How many bits of the value are read.
    end: u64,
}

impl Model for Layout {
    ghost use Rattle.std.specs.Prelude.{List, ◌≡◌};
    ghost use Rattle.spv_print.specs.declared.pieces.Piece.{Piece};
    ghost use Rattle.spv_print.specs.Pieces.{pieces_end};

    ghost Value = { List Piece };

    ghost view = { λ l. l.pieces.items };

    ghost invariant = { λ l. l.end ≡ pieces_end l.pieces.items };
}

fn larger(a: u64, b: u64) -> u64
    ensures { result ≡ max a b }
{
    if a < b { b } else { a }
}

/// The end of the bits that are read for some pieces.
fn end_of(pieces: &[Piece]) -> u64
    requires { pieces_end pieces.now < 2 ^ 64 }
    ensures { result ≡ pieces_end pieces.now }
{
    let mut end = 0;
    for piece in pieces {
        end = larger(end, piece.end());
    }
    end
}

impl Layout {
    /// That of a part of a type with so many bits, from its first on. The time is that of what is written, however large the part is.
    pub fn of(
        alloc: Global,
        tables: &DebugTables,
        part: TypePart<'_>,
        size: u64,
    ) -> Result<Layout, NoMemory>
        ensures { IfOk result (λ layout. layout ≡ spec.layout_of tables.now (kept_part part.entry) size) }
    {
        let mut sheet = Sheet::new(alloc);
        let writer = Writer {
            alloc,
            tables,
            size,
        };
        writer.part(&mut sheet, MOST_NESTED, true, part)?;
        let pieces = sheet.pieces();
        let end = end_of(pieces.as_slice());
        Ok(Layout { pieces, end })
    }

    /// How many bits of the value its text can show, from the first on: no others are read.
    pub fn end(&self) -> u64
        ensures { result ≡ pieces_end self.now }
    {
        self.end
    }

    /// Appends the text of the value. Bits behind those that are read need not be given; another that is missing is unbound. After want of
    /// memory nothing was appended.
    pub fn text(
        &self,
        alloc: Global,
        tables: &DebugTables,
        bits: &[Bit],
        out: &mut Vec<u8>,
    ) -> Result<(), NoMemory>
        ensures ok { OnOk result ((all : Bits) → ((k : ℕ) → k < pieces_end self.now → bits_in bits.now k ≡ all k) → out.new.items ≡ out.old.items ++ text_of tables.now all self.now) }
        ensures err { OnErr result (out.new.items ≡ out.old.items) }
    {
        let mut text = Vec::new(alloc);
        Source {
            alloc,
            tables,
            bits,
        }
        .push_all(&mut text, self.pieces.as_slice())?;
        out.extend_from_slice(&text)?;
        Ok(())
    }
}

/// Appends the text of a part of a type with these bits: numbers by the Encoding of their TypeBasic, the names of a TypeEnum, lists `[1, 2]`
/// and structs `{x = 1, y = 2}`. A leaf with an unbound bit is `<unavailable>`, and else one with an undefined bit `<undefined>`. In the last
/// part a Count of 0 has as many whole elements as bits are left. At most 256 leaves and empty lists are written: `...` stands once in each list
/// or struct in place of its elements that would begin after them. After want of memory nothing was appended.
pub fn text(
    alloc: Global,
    tables: &DebugTables,
    part: TypePart<'_>,
    bits: &[Bit],
    out: &mut Vec<u8>,
) -> Result<(), NoMemory>
    ensures ok { OnOk result (out.new.items ≡ out.old.items ++ spec.text tables.now (kept_part part.entry) (length bits.now) (bits_in bits.now)) }
    ensures err { OnErr result (out.new.items ≡ out.old.items) }
{
    let layout = Layout::of(alloc, tables, part, bits.len() as u64)?;
    layout.text(alloc, tables, bits, out)?;
    Ok(())
}
