//! The texts of values by the debug types of a module, summed up.
use spv_base::NoMemory;
use spv_dbg::{Bit, DebugInst, DebugTables};
use spv_ops::debug_info::*;
use spv_parts::whole;
use spv_print::{Layout, text};
use std::alloc::Global;

/// How many bits a value has behind those of its type.
const MORE_BITS: u64 = 100;

/// The most bits of a value that are all given.
const MOST_BITS: u64 = 1_000_000;

/// Over all types: how many there are, the bytes of a text of each and their sum, and for how many the same is written of the bits alone that are read.
#[derive(Clone, Copy)]
pub struct Values {
    pub types: u64,
    pub bytes: u64,
    pub sum: u64,
    pub same: u64,
}

/// Bit k of a value: each 131st isn't there, each 97th is undefined.
fn pattern(k: u64) -> Bit {
    Bit {
        bound: k % 131 != 130,
        defined: k % 97 != 96,
        one: (k / 5).wrapping_add(k) % 3 == 0,
    }
}

/// So many bits.
fn bits_of(alloc: Global, len: u64) -> Result<Vec<Bit>, NoMemory> {
    let mut bits = Vec::new(alloc);
    for k in 0..len {
        bits.push(pattern(k))?;
    }
    Ok(bits)
}

/// Whether a record is a type.
fn is_type(record: &DebugInst) -> bool {
    matches!(
        record.number,
        INFO_NONE
            | TYPE_BASIC
            | TYPE_POINTER
            | TYPE_QUALIFIER
            | TYPE_ARRAY
            | TYPE_VECTOR
            | TYPEDEF
            | TYPE_FUNCTION
            | TYPE_ENUM
            | TYPE_COMPOSITE
            | TYPE_MATRIX
    )
}

/// The text of a value of a type with so many bits, written of all of them where they aren't too many.
fn text_of(alloc: Global, tables: &DebugTables, ty: u32, len: u64) -> Result<Vec<u8>, NoMemory> {
    if len > MOST_BITS {
        return read_text_of(alloc, tables, ty, len);
    }
    let bits = bits_of(alloc, len)?;
    let mut out = Vec::new(alloc);
    text(alloc, tables, whole(ty), bits.as_slice(), &mut out)?;
    Ok(out)
}

/// The same, written of the bits alone that are read.
fn read_text_of(
    alloc: Global,
    tables: &DebugTables,
    ty: u32,
    len: u64,
) -> Result<Vec<u8>, NoMemory> {
    let layout = Layout::of(alloc, tables, whole(ty), len)?;
    let bits = bits_of(alloc, layout.end())?;
    let mut out = Vec::new(alloc);
    layout.text(alloc, tables, bits.as_slice(), &mut out)?;
    Ok(out)
}

impl Values {
    /// Adds a type.
    fn add(&mut self, alloc: Global, tables: &DebugTables, ty: u32) -> Result<(), NoMemory> {
        let len = tables.bits(ty).unwrap_or(0).saturating_add(MORE_BITS);
        let text = text_of(alloc, tables, ty, len)?;
        let same = text == read_text_of(alloc, tables, ty, len)?;
        self.types = self.types.saturating_add(1);
        self.bytes = self.bytes.saturating_add(text.len() as u64);
        for byte in &text {
            self.sum = self.sum.saturating_add(u64::from(*byte));
        }
        self.same = self.same.saturating_add(u64::from(same));
        Ok(())
    }

    /// Those of all types.
    pub fn of(alloc: Global, tables: &DebugTables) -> Result<Values, NoMemory> {
        let mut values = Values {
            types: 0,
            bytes: 0,
            sum: 0,
            same: 0,
        };
        for record in tables.insts() {
            if is_type(record) {
                values.add(alloc, tables, record.id)?;
            }
        }
        Ok(values)
    }
}
