//! The lengths of array types.
ghost use Rattle.std.specs.Prelude.{◌≡◌, ◌≤◌, Some, IfSome};
ghost use Rattle.spv_types.specs.Types.{form_of};
ghost use Rattle.spv_consts.specs.Lengths as spec;

use crate::context::Context;
use crate::numbers::MOST_CELLS;
use crate::walk::Walk;
use spv_alu::integers::signed;
use spv_base::{Cell, Inst};
use spv_index::id_operand;
use spv_ops::op;
use spv_types::{Form, TypeTable};

/// The sign of an integer type.
fn sign_of(types: &TypeTable, ty: u32) -> Option<u32>
    ensures { result ≡ spec.sign_of (form_of types.now ty) }
{
    match types.form(ty) {
        Some(Form::Int { sign, .. }) => Some(*sign),
        _ => None,
    }
}

/// The number of a lane, read as signed where the sign is 1.
fn number_in(sign: u32, cell: Cell) -> i128
    ensures { result ≡ spec.number_in sign cell }
{
    if sign == 1 && cell.width >= 1 {
        i128::from(signed(cell.bits, cell.width))
    } else {
        i128::from(cell.bits)
    }
}

/// A defined number of at least 1.
#[tactic(auto, using(crate::proofs::LengthLemmas::length_positive))]
fn lane_length(sign: u32, cell: Cell) -> Option<u64>
    ensures length { result ≡ spec.lane_length sign cell }
    ensures positive { IfSome result (λ length. 1 ≤ length) }
{
    if cell.defined && number_in(sign, cell) >= 1 {
        Some(cell.bits)
    } else {
        None
    }
}

/// Whether a type is an array without a length.
pub(crate) fn is_unset(types: &TypeTable, ty: u32) -> bool
    ensures { result ≡ spec.is_unset (form_of types.now ty) }
{
    matches!(types.form(ty), Some(Form::Array { length: None, .. }))
}

/// The length that the constant with an id gives.
fn constant_length(walk: &Walk, context: &Context, id: u32) -> Option<u64>
    ensures length { result ≡ spec.constant_length context.now walk.now id }
    ensures positive { IfSome result (λ length. 1 ≤ length) }
{
    let sign = sign_of(&walk.types, context.index.result_type(id)?)?;
    lane_length(sign, walk.values.scalar(id)?)
}

/// The length of an array type.
pub(crate) fn length_at(walk: &Walk, context: &Context, inst: &Inst) -> Option<u64>
    ensures length { result ≡ spec.length_at context.now walk.now inst.now }
    ensures positive { IfSome result (λ length. 1 ≤ length) }
{
    if inst.op == op::TYPE_ARRAY {
        constant_length(walk, context, id_operand(inst, 1)?)
    } else {
        None
    }
}

/// Sets the length of an array type. There is no walk where it is longer than a type may have cells.
pub(crate) fn lengthened(walk: Walk, context: &Context, inst: &Inst) -> Option<Walk>
    ensures { result ≡ spec.lengthened context.now walk inst.now }
{
    let Some(length) = length_at(&walk, context, inst) else {
        return Some(walk);
    };
    if length > MOST_CELLS {
        return None;
    }
    Some(walk.with_array(inst.id, length as u32))
}
