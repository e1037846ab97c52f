//! Parts that have elements.
ghost use Rattle.std.specs.Prelude.{◌≡◌, option_map, take};
ghost use Rattle.spv_parts.specs.Arrays as spec;
ghost use Rattle.spv_parts.specs.Kept.{kept_part};

use crate::parts::{TypePart, operand, operands_from, plain};
use spv_dbg::{DebugInst, DebugTables};
use spv_ops::debug_info::*;

/// The first of some ids, if there is one.
pub(crate) fn first_of(ids: &[u32]) -> &[u32]
    ensures { result.now ≡ take 1 ids.now }
{
    ids.get(..1).unwrap_or(&[])
}

/// What a type is an array of, and by which Counts, where it has elements.
fn array_in(debug: &DebugInst) -> Option<TypePart<'_>>
    ensures { option_map kept_part result ≡ spec.array_in debug.now }
{
    match debug.number {
        TYPE_ARRAY => Some(TypePart {
            base: operand(debug, 0),
            counts: operands_from(debug, 1),
        }),
        TYPE_VECTOR | TYPE_MATRIX => Some(TypePart {
            base: operand(debug, 0),
            counts: first_of(operands_from(debug, 1)),
        }),
        _ => None,
    }
}

/// A part as an array by some Counts, the outermost first, seen through each TypeQualifier and Typedef. None where it has no
/// elements.
pub fn as_array<'a>(tables: &'a DebugTables, part: TypePart<'a>) -> Option<TypePart<'a>>
    ensures { option_map kept_part result ≡ spec.as_array tables.now (kept_part part.entry) }
{
    if part.counts.is_empty() {
        array_in(tables.get(plain(tables, part.base))?)
    } else {
        Some(part)
    }
}
