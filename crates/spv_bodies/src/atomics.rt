//! The rules of atomics and barriers.
ghost use Rattle.std.specs.Prelude.{◌≡◌};
ghost use Rattle.spv_bodies.specs.Atomics as spec;
ghost use Rattle.spv_bodies.specs.Context.{is_constant_at};

use crate::context::Context;
use spv_base::Inst;
use spv_index::id_operand;
use spv_ops::scope;
use spv_ops::storage_class::{STORAGE_BUFFER, WORKGROUP};
use spv_types::queries::{Pointed, is_integer};

/// Whether a pointer leads to a scalar integer in StorageBuffer or Workgroup.
fn is_shared(context: &Context, p: Pointed) -> bool
    ensures { result ≡ spec.is_shared context.now p }
{
    matches!(p.class, STORAGE_BUFFER | WORKGROUP) && is_integer(context.form(p.target))
}

/// Whether the operand at a place is a constant.
fn is_constant_at(context: &Context, inst: &Inst, place: usize) -> bool
    ensures { result ≡ is_constant_at context.now inst.now place }
{
    context.constant_at(inst, place).is_some()
}

/// Whether a scope and semantics are constants.
fn is_ordered(context: &Context, inst: &Inst) -> bool
    ensures { result ≡ spec.is_ordered context.now inst.now }
{
    is_constant_at(context, inst, 1) && is_constant_at(context, inst, 2)
}

/// Whether an atomic without a value keeps its rule.
pub fn keeps_atomic_read(context: &Context, inst: &Inst) -> bool
    ensures { result ≡ spec.keeps_atomic_read context.now inst.now }
{
    match context.pointee_at(inst, 0) {
        Some(p) => is_shared(context, p) && p.target == inst.ty && is_ordered(context, inst),
        None => false,
    }
}

/// Whether an atomic store keeps its rule.
pub fn keeps_atomic_store(context: &Context, inst: &Inst) -> bool
    ensures { result ≡ spec.keeps_atomic_store context.now inst.now }
{
    match context.pointee_at(inst, 0) {
        Some(p) => is_shared(context, p)
            && context.type_at(inst, 3) == Some(p.target)
            && is_ordered(context, inst),
        None => false,
    }
}

/// Whether an atomic with a value keeps its rule.
pub fn keeps_atomic_update(context: &Context, inst: &Inst) -> bool
    ensures { result ≡ spec.keeps_atomic_update context.now inst.now }
{
    match context.pointee_at(inst, 0) {
        Some(p) => is_shared(context, p)
            && p.target == inst.ty
            && context.type_at(inst, 3) == Some(p.target)
            && is_ordered(context, inst),
        None => false,
    }
}

/// Whether an atomic with a value and a comparator keeps its rule.
pub fn keeps_atomic_compare(context: &Context, inst: &Inst) -> bool
    ensures { result ≡ spec.keeps_atomic_compare context.now inst.now }
{
    match context.pointee_at(inst, 0) {
        Some(p) => is_shared(context, p)
            && p.target == inst.ty
            && context.type_at(inst, 4) == Some(p.target)
            && context.type_at(inst, 5) == Some(p.target)
            && is_ordered(context, inst)
            && is_constant_at(context, inst, 3),
        None => false,
    }
}

/// The number of the constant with an id.
fn number_by(context: &Context, id: u32) -> Option<u64>
    ensures { result ≡ spec.number_by context.now id }
{
    context.consts().scalar(id)?.number()
}

/// The number of the constant at a place among the operands.
fn number_at(context: &Context, inst: &Inst, place: usize) -> Option<u64>
    ensures { result ≡ spec.number_at context.now inst.now place }
{
    number_by(context, id_operand(inst, place)?)
}

/// Whether a control barrier is of the workgroup, and its other operands are constants.
pub fn keeps_control_barrier(context: &Context, inst: &Inst) -> bool
    ensures { result ≡ spec.keeps_control_barrier context.now inst.now }
{
    context.is_integer_at(inst, 0)
        && number_at(context, inst, 0) == Some(u64::from(scope::WORKGROUP))
        && is_ordered(context, inst)
}

/// Whether the operands of a memory barrier are constants.
pub fn keeps_memory_barrier(context: &Context, inst: &Inst) -> bool
    ensures { result ≡ spec.keeps_memory_barrier context.now inst.now }
{
    is_constant_at(context, inst, 0) && is_constant_at(context, inst, 1)
}
