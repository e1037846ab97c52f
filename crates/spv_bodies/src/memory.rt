//! The rules of variables, loads and stores in functions.
ghost use Rattle.std.specs.Prelude.{◌≡◌};
ghost use Rattle.spv_bodies.specs.Memory as spec;

use crate::context::Context;
use spv_base::Inst;
use spv_index::literal_operand;
use spv_ops::storage_class::{FUNCTION, INPUT, PUSH_CONSTANT, UNIFORM};
use spv_types::queries::{Pointed, member_of, pointee};

/// Whether functions may write variables of a class.
fn is_writable(class: u32) -> bool
    ensures { result ≡ spec.is_writable class }
{
    !matches!(class, INPUT | UNIFORM | PUSH_CONSTANT)
}

/// Whether an undefined value is of data without a runtime array.
pub fn keeps_undef(context: &Context, inst: &Inst) -> bool
    ensures { result ≡ spec.keeps_undef context.now inst.now }
{
    context.types().is_sized_data(inst.ty)
}

/// Whether an initializer is a constant of the target type.
fn starts(context: &Context, inst: &Inst, target: u32) -> bool
    ensures { result ≡ spec.starts context.now inst.now target }
{
    inst.operands.len() <= 1 || context.constant_at(inst, 1) == Some(target)
}

/// Whether a variable is of class Function, without a runtime array, and starts as a constant or undefined.
pub fn keeps_variable(context: &Context, inst: &Inst) -> bool
    ensures { result ≡ spec.keeps_variable context.now inst.now }
{
    match pointee(context.form(inst.ty)) {
        Some(p) => p.class == FUNCTION
            && literal_operand(inst, 0) == Some(FUNCTION)
            && !context.types().has_runtime(p.target)
            && starts(context, inst, p.target),
        None => false,
    }
}

/// Whether a load gives sized data of the pointer's target type.
pub fn keeps_load(context: &Context, inst: &Inst) -> bool
    ensures { result ≡ spec.keeps_load context.now inst.now }
{
    match context.pointee_at(inst, 0) {
        Some(p) => p.target == inst.ty && context.types().is_sized_data(inst.ty),
        None => false,
    }
}

/// Whether a pointer leads to sized data in a class that functions may write.
fn may_be_stored(context: &Context, p: Pointed) -> bool
    ensures { result ≡ spec.may_be_stored context.now p }
{
    is_writable(p.class) && context.types().is_sized_data(p.target)
}

/// Whether a store is of an object of the pointer's target type.
pub fn keeps_store(context: &Context, inst: &Inst) -> bool
    ensures { result ≡ spec.keeps_store context.now inst.now }
{
    match context.pointee_at(inst, 0) {
        Some(p) => context.type_at(inst, 1) == Some(p.target) && may_be_stored(context, p),
        None => false,
    }
}

/// Whether a copy of memory has two pointers to one type.
pub fn keeps_copy_memory(context: &Context, inst: &Inst) -> bool
    ensures { result ≡ spec.keeps_copy_memory context.now inst.now }
{
    match (context.pointee_at(inst, 0), context.pointee_at(inst, 1)) {
        (Some(p), Some(q)) => q.target == p.target && may_be_stored(context, p),
        _ => false,
    }
}

/// The member of a struct type that the literal at a place names.
fn member_at(context: &Context, inst: &Inst, place: usize, ty: u32) -> Option<u32>
    ensures { result ≡ spec.member_at context.now inst.now place ty }
{
    member_of(context.form(ty), literal_operand(inst, place)? as usize)
}

/// Whether a length is asked of a runtime array, and given in 32 bits.
pub fn keeps_array_length(context: &Context, inst: &Inst) -> bool
    ensures { result ≡ spec.keeps_array_length context.now inst.now }
{
    if !context.types().is_word(inst.ty) {
        return false;
    }
    let Some(p) = context.pointee_at(inst, 0) else {
        return false;
    };
    match member_at(context, inst, 1, p.target) {
        Some(ty) => context.types().is_runtime(ty),
        None => false,
    }
}
