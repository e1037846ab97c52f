//! The rules of access chains.
ghost use Rattle.std.specs.Prelude.{◌≡◌, option_copied};
ghost use Rattle.spv_bodies.specs.Chains as spec;

use crate::context::Context;
use spv_base::{Cell, Inst, Operand};
use spv_index::{id_in, operands_from};
use spv_ops::op::CONSTANT;
use spv_types::Form;
use spv_types::queries::{Pointed, is_integer, member_type, pointee};

/// A scalar's number, where it is defined and not below 0 when it is read as signed.
fn index_in(cell: Cell) -> Option<u64>
    ensures { result ≡ spec.index_in cell }
{
    let limit: u64 = 1 << cell.width.saturating_sub(1);
    if cell.defined && cell.bits < limit {
        Some(cell.bits)
    } else {
        None
    }
}

/// Whether an id is that of an OpConstant.
fn is_literal(context: &Context, id: u32) -> bool
    ensures { result ≡ spec.is_literal context.now id }
{
    match context.defining(id) {
        Some(inst) => inst.op == CONSTANT,
        None => false,
    }
}

/// The member that a struct's index names.
fn member_number(context: &Context, index: u32) -> Option<u64>
    ensures { result ≡ spec.member_number context.now index }
{
    if !is_literal(context, index) {
        return None;
    }
    index_in(context.consts().scalar(index)?)
}

/// The part of a type that an index leads to.
fn part_by(context: &Context, index: u32, form: Option<&Form>) -> Option<u32>
    ensures { result ≡ spec.part_by context.now index (option_copied form.entry) }
{
    match form? {
        Form::Vector { component, .. } => Some(*component),
        Form::Array { element, .. } | Form::Runtime { element, .. } => Some(*element),
        Form::Struct { members, .. } => {
            member_type(members.as_slice(), member_number(context, index)? as usize)
        }
        Form::Void | Form::Bool | Form::Int { .. } | Form::Pointer { .. } | Form::Function { .. } =>
            None,
    }
}

/// The form of an id's type.
fn form_in<'a>(context: &'a Context, id: u32) -> Option<&'a Form>
    ensures { option_copied result ≡ spec.form_in context.now id }
{
    match context.type_of(id) {
        Some(ty) => context.form(ty),
        None => None,
    }
}

/// The part of a type that a scalar integer leads to.
fn inner(context: &Context, ty: u32, index: u32) -> Option<u32>
    ensures { result ≡ spec.inner context.now ty index }
{
    if is_integer(form_in(context, index)) {
        part_by(context, index, context.form(ty))
    } else {
        None
    }
}

/// The type that some indexes reach.
fn reached_type(context: &Context, target: u32, indexes: &[Operand]) -> Option<u32>
    ensures { result ≡ spec.reached_type context.now target indexes.now }
{
    let mut ty = target;
    for index in indexes {
        ty = inner(context, ty, id_in(index)?)?;
    }
    Some(ty)
}

/// Whether a result leads, in its base's class, to the type that the operands behind the first ones reach.
fn reaches_from(context: &Context, inst: &Inst, first: usize, p: Pointed, q: Pointed) -> bool
    ensures { result ≡ spec.reaches_from context.now inst.now first p q }
{
    q.class == p.class
        && reached_type(context, p.target, operands_from(inst, first)) == Some(q.target)
}

/// Whether an instruction's result is a pointer that leads there from its base.
pub fn reaches(context: &Context, inst: &Inst, first: usize, p: Pointed) -> bool
    ensures { result ≡ spec.reaches context.now inst.now first p }
{
    match pointee(context.form(inst.ty)) {
        Some(q) => reaches_from(context, inst, first, p, q),
        None => false,
    }
}

/// Whether a chain keeps its rule.
pub fn keeps_chain(context: &Context, inst: &Inst) -> bool
    ensures { result ≡ spec.keeps_chain context.now inst.now }
{
    match context.pointee_at(inst, 0) {
        Some(p) => reaches(context, inst, 1, p),
        None => false,
    }
}
