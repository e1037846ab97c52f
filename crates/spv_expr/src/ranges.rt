//! The bits of a variable that a debug event covers.
ghost use Rattle.std.specs.Prelude.{◌≡◌, ◌+◌, option_copied, option_map};
ghost use Rattle.spv_base.specs.Saturation.{saturated};
ghost use Rattle.spv_expr.specs.Kept.{bounds, kept_bounds};
ghost use Rattle.spv_expr.specs.Variables as spec;
ghost use Rattle.spv_parts.specs.Kept.{kept_place};

use spv_dbg::{DebugInst, DebugTables};
use spv_parts::{Place, literal, operand, operands_from, part_bits, reached};

/// The OpCode of a Fragment.
const FRAGMENT: u32 = 9;

/// Bits from one on to before another one.
#[derive(Clone, Copy)]
pub(crate) struct Range {
    pub(crate) start: u64,
    pub(crate) end: u64,
}

/// The last Operation of the Expression with an id.
fn last_operation(tables: &DebugTables, expression: u32) -> Option<&DebugInst>
    ensures { option_copied result ≡ spec.last_operation tables.now expression }
{
    let ids = tables.get(expression)?.operands.as_slice();
    tables.get(*ids.last()?)
}

/// So many bits from one on.
fn bits_from(start: u64, len: u64) -> Range
    ensures start { result.start ≡ start }
    ensures end { result.end ≡ saturated (start + len) }
{
    Range {
        start,
        end: start.saturating_add(len),
    }
}

/// The bits of a part.
fn bits_of(tables: &DebugTables, place: Place<'_>) -> Range
    ensures { kept_bounds result ≡ bounds (spec.bits_of tables.now (kept_place place.entry)) }
{
    bits_from(place.start, part_bits(tables, place.part))
}

/// The bits of a Fragment in a part, if it is within it, and those of the part where it is another Operation.
fn fragment_in(tables: &DebugTables, place: Place<'_>, operation: &DebugInst) -> Option<Range>
    ensures { option_map kept_bounds result ≡ option_map bounds (spec.fragment_in tables.now (kept_place place.entry) operation.now) }
{
    if literal(tables, operand(operation, 0)) != FRAGMENT {
        return Some(bits_of(tables, place));
    }
    let offset = u64::from(literal(tables, operand(operation, 1)));
    let size = u64::from(literal(tables, operand(operation, 2)));
    if offset + size > part_bits(tables, place.part) {
        return None;
    }
    Some(bits_from(place.start.saturating_add(offset), size))
}

/// The bits of a part, or of the Fragment in it with which the Expression with an id ends.
fn narrowed(tables: &DebugTables, expression: u32, place: Place<'_>) -> Option<Range>
    ensures { option_map kept_bounds result ≡ option_map bounds (spec.narrowed tables.now expression (kept_place place.entry)) }
{
    match last_operation(tables, expression) {
        Some(operation) => fragment_in(tables, place, operation),
        None => Some(bits_of(tables, place)),
    }
}

/// The bits of a variable of a type that a debug event covers.
pub(crate) fn covered(tables: &DebugTables, ty: u32, debug: &DebugInst) -> Option<Range>
    ensures { option_map kept_bounds result ≡ option_map bounds (spec.covered tables.now ty debug.now) }
{
    let place = reached(tables, ty, operands_from(debug, 3))?;
    narrowed(tables, operand(debug, 2), place)
}
