//! The operations of OpSpecConstantOp on lanes.
ghost use Rattle.std.specs.Prelude.{◌≡◌};
ghost use Rattle.spv_consts.specs.Lanes.{binary_lane, select_lane, takes_one, takes_two, unary_lane};

use spv_alu::{BinaryOp, UnaryOp, results};
use spv_base::Cell;

/// Whether a unary operation takes an operand and a result of these widths.
fn takes_one(op: u16, from: u8, to: u8) -> bool
    ensures { result ≡ takes_one op from to }
{
    match UnaryOp::of(op) {
        Some(operation) => operation.takes(from, to),
        None => false,
    }
}

/// Whether a binary operation takes operands of these widths.
fn takes_two(op: u16, first: u8, second: u8) -> bool
    ensures { result ≡ takes_two op first second }
{
    match BinaryOp::of(op) {
        Some(operation) => operation.takes(first, second),
        None => false,
    }
}

/// The lane of a unary operation, with a result of a width.
pub(crate) fn unary_lane(op: u16, width: u8, a: Cell) -> Cell
    ensures { result ≡ unary_lane op width a }
{
    if takes_one(op, a.width, width) {
        spv_alu::unary(op, a, width)
    } else {
        results::undefined(a.width)
    }
}

/// The lane of a binary operation.
pub(crate) fn binary_lane(op: u16, a: Cell, b: Cell) -> Cell
    ensures { result ≡ binary_lane op a b }
{
    if takes_two(op, a.width, b.width) {
        spv_alu::binary(op, a, b)
    } else {
        results::undefined(a.width)
    }
}

/// The lane of Select.
pub(crate) fn select_lane(condition: Cell, a: Cell, b: Cell) -> Cell
    ensures { result ≡ select_lane condition a b }
{
    if b.width == a.width {
        spv_alu::select(condition, a, b)
    } else {
        results::undefined(a.width)
    }
}
