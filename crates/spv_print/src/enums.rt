//! The texts of the values of a TypeEnum.
ghost use Rattle.std.specs.Prelude.{◌≡◌, ◌++◌, ◌<◌, ◌^◌, OnOk};
ghost use Rattle.spv_alu.specs.Integers as integers;
ghost use Rattle.spv_print.specs.Enums as spec;

use crate::leaves::Leaf;
use crate::numbers::push_decimal;
use spv_alu::integers::signed;
use spv_base::NoMemory;
use spv_dbg::DebugTables;
use spv_parts::{literal, operands_from};
use spv_source::push_shown;
use std::alloc::Global;

/// Whether the Value with an id has the number of a leaf.
fn is_value(tables: &DebugTables, leaf: Leaf, number: u64, id: u32) -> bool
    requires width { integers.IsWidth leaf.size }
    requires fits { number < 2 ^ leaf.size }
    ensures { result ≡ spec.is_value tables.now leaf number id }
{
    let value = u64::from(literal(tables, id));
    if leaf.is_signed() {
        signed(number, leaf.size as u8) == signed(value, 32)
    } else {
        number == value
    }
}

/// The Name of the first of some pairs whose Value has the number of a leaf.
fn name_among(tables: &DebugTables, leaf: Leaf, number: u64, mut pairs: &[u32]) -> Option<u32>
    requires width { integers.IsWidth leaf.size }
    requires fits { number < 2 ^ leaf.size }
    ensures { result ≡ spec.name_among tables.now leaf number pairs.entry.now }
{
    'pairs: while let [value, name, more @ ..] = pairs {
        if is_value(tables, leaf, number, *value) {
            return Some(*name);
        }
        pairs = more;
    }
    None
}

/// The pairs of a TypeEnum.
fn pairs_of(tables: &DebugTables, ty: u32) -> &[u32]
    ensures { result.now ≡ spec.pairs_of tables.now ty }
{
    match tables.get(ty) {
        Some(debug) => operands_from(debug, 8),
        None => &[],
    }
}

/// Appends the number of a leaf by the pairs of a TypeEnum.
pub(crate) fn push_enum(
    alloc: Global,
    tables: &DebugTables,
    text: &mut Vec<u8>,
    ty: u32,
    leaf: Leaf,
    number: u64,
) -> Result<(), NoMemory>
    requires width { integers.IsWidth leaf.size }
    requires fits { number < 2 ^ leaf.size }
    ensures { OnOk result (text.new.items ≡ text.old.items ++ spec.enum_text tables.now ty leaf number) }
{
    match name_among(tables, leaf, number, pairs_of(tables, ty)) {
        Some(name) => push_shown(text, tables.string(name).unwrap_or(&[])),
        None => push_decimal(alloc, text, leaf, number),
    }
}
