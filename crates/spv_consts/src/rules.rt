//! The rules of constants and of array lengths.
ghost use Rattle.std.specs.Prelude.{◌≡◌, ◌+◌};
ghost use Rattle.spv_typing.specs.Operands.{types_by};
ghost use Rattle.spv_types.specs.Types.{form_of};
ghost use Rattle.spv_consts.specs.Rules as spec;

use crate::context::Context;
use crate::lengths::length_at;
use crate::literals::{integer_width, keeps_literal};
use crate::walk::Walk;
use spv_base::{Inst, Operand};
use spv_index::{id_in, id_operand, literal_operand, operands_from};
use spv_ops::op;
use spv_types::constants::is_constant;
use spv_types::queries::is_boolean;
use spv_types::{Form, TypeTable};
use spv_typing::{OperandTypes, fits_types, is_constant_operation, operand_count};

/// The number of parts of a vector, array or struct.
fn part_count(types: &TypeTable, ty: u32) -> Option<usize>
    ensures { result ≡ spec.part_count (form_of types.now ty) }
{
    match types.form(ty) {
        Some(Form::Vector { count, .. }) => Some(*count as usize),
        Some(
            Form::Array {
                length: Some(length),
                ..
            },
        ) => Some(*length as usize),
        Some(Form::Struct { members, .. }) => Some(members.len()),
        _ => None,
    }
}

/// The type of a part.
fn part_type(types: &TypeTable, ty: u32, part: usize) -> Option<u32>
    ensures { result ≡ spec.part_type_of (form_of types.now ty) part }
{
    match types.form(ty) {
        Some(Form::Vector { component, .. }) => Some(*component),
        Some(Form::Array { element, .. }) => Some(*element),
        Some(Form::Runtime { element, .. }) => Some(*element),
        Some(Form::Struct { members, .. }) => Some(members.get(part)?.ty),
        _ => None,
    }
}

/// Whether the result with an id has the type of a part.
fn has_type(context: &Context, part: Option<u32>, id: u32) -> bool
    ensures { result ≡ spec.has_type context.now part id }
{
    match context.index.result_type(id) {
        Some(ty) => part == Some(ty),
        None => false,
    }
}

/// The opcode of an OpSpecConstantOp.
pub(crate) fn opcode_of(inst: &Inst) -> Option<u16>
    ensures { result ≡ spec.opcode_of inst.now }
{
    let op = literal_operand(inst, 0)?;
    if op < 65_536 { Some(op as u16) } else { None }
}

/// The type of the operand at a place, where it has one.
fn operand_type(context: &Context, inst: &Inst, place: usize) -> Option<u32>
    ensures { result ≡ spec.operand_type context.now inst.now place }
{
    context.index.result_type(id_operand(inst, place)?)
}

/// The types of the operands of an OpSpecConstantOp after its opcode.
fn operand_types(context: &Context, inst: &Inst) -> OperandTypes
    ensures { result ≡ types_by (λ k. spec.operand_type context.now inst.now (1 + k)) }
{
    OperandTypes {
        first: operand_type(context, inst, 1),
        second: operand_type(context, inst, 2),
        third: operand_type(context, inst, 3),
        fourth: operand_type(context, inst, 4),
    }
}

/// Whether there are as many operands as an operation has, and its opcode.
fn keeps_count(inst: &Inst, op: u16) -> bool
    ensures { result ≡ spec.keeps_count inst.now op }
{
    match operand_count(op) {
        Some(count) => inst.operands.len() == count as usize + 1,
        None => false,
    }
}

/// Whether a constituent is a constant or an OpUndef before the composite, of a part's type.
fn keeps_part(walk: &Walk, context: &Context, inst: &Inst, part: usize, id: Option<u32>) -> bool
    ensures { result ≡ spec.keeps_part context.now walk.now inst.now.word (spec.part_type_of (form_of walk.now.types inst.now.ty) part) id }
{
    match id {
        Some(id) => {
            walk.is_operand(context, inst.word, id)
                && has_type(context, part_type(&walk.types, inst.ty, part), id)
        }
        None => false,
    }
}

/// Whether constituents are of the types of the parts.
fn keeps_parts(walk: &Walk, context: &Context, inst: &Inst) -> bool
    ensures { result ≡ spec.keeps_parts context.now walk.now inst.now.word (form_of walk.now.types inst.now.ty) 0 inst.now.operands }
{
    for (part, operand) in inst.operands.as_slice().iter().enumerate() {
        if !keeps_part(walk, context, inst, part, id_in(operand)) {
            return false;
        }
    }
    true
}

/// Whether a composite has one constituent for each part.
fn keeps_composite(walk: &Walk, context: &Context, inst: &Inst) -> bool
    ensures { result ≡ spec.keeps_composite context.now walk.now inst.now (form_of walk.now.types inst.now.ty) }
{
    part_count(&walk.types, inst.ty) == Some(inst.operands.len())
        && keeps_parts(walk, context, inst)
}

/// Whether each operand is a constant or an OpUndef before a word.
fn are_operands(walk: &Walk, context: &Context, word: u32, operands: &[Operand]) -> bool
    ensures { result ≡ spec.are_operands context.now walk.now word operands.now }
{
    for operand in operands {
        if !walk.is_given(context, word, id_in(operand)) {
            return false;
        }
    }
    true
}

/// Whether an operation has as many operands as it wants, of types that fit the result.
#[tactic(auto, using(spv_typing::proofs::Exports::fits_by))]
fn keeps_opcode(walk: &Walk, context: &Context, inst: &Inst, op: u16) -> bool
    ensures { result ≡ spec.keeps_opcode context.now walk.now inst.now op }
{
    is_constant_operation(op)
        && keeps_count(inst, op)
        && are_operands(walk, context, inst.word, operands_from(inst, 1))
        && fits_types(&walk.types, op, inst.ty, operand_types(context, inst))
}

/// Whether an OpSpecConstantOp keeps its rules.
fn keeps_operation(walk: &Walk, context: &Context, inst: &Inst) -> bool
    ensures { result ≡ spec.keeps_operation context.now walk.now inst.now }
{
    match opcode_of(inst) {
        Some(op) => keeps_opcode(walk, context, inst, op),
        None => false,
    }
}

/// Whether a constant keeps the rule of its kind.
fn keeps_kind(walk: &Walk, context: &Context, inst: &Inst) -> bool
    ensures { result ≡ spec.keeps_kind context.now walk.now inst.now }
{
    match inst.op {
        op::CONSTANT_COMPOSITE | op::SPEC_CONSTANT_COMPOSITE => keeps_composite(
            walk, context, inst,
        ),
        op::CONSTANT_NULL => true,
        op::SPEC_CONSTANT_OP => keeps_operation(walk, context, inst),
        op::CONSTANT | op::SPEC_CONSTANT => keeps_literal(
            integer_width(&walk.types, inst.ty),
            inst,
        ),
        _ => is_boolean(walk.types.form(inst.ty)),
    }
}

/// Whether an instruction keeps the rules of constants and array lengths.
pub(crate) fn keeps_rules(walk: &Walk, context: &Context, inst: &Inst) -> bool
    ensures { result ≡ spec.keeps_rules context.now walk.now inst.now }
{
    if inst.op == op::TYPE_ARRAY {
        return length_at(walk, context, inst).is_some();
    }
    if !is_constant(inst.op) {
        return true;
    }
    walk.types.is_sized_data(inst.ty) && keeps_kind(walk, context, inst)
}
