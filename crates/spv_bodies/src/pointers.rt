//! The rules of variable pointers, which lead into storage buffers alone.
ghost use Rattle.std.specs.Prelude.{◌≡◌};
ghost use Rattle.spv_bodies.specs.Pointers as spec;

use crate::chains::reaches;
use crate::context::{Context, is_buffer_pointer};
use crate::lanes::keeps_lanes;
use spv_base::Inst;
use spv_ops::storage_class::STORAGE_BUFFER;
use spv_types::queries::is_boolean;

/// Whether one Boolean chooses between two pointers of the result's type, in a module that declares variable pointers.
fn keeps_pointer_select(context: &Context, inst: &Inst) -> bool
    ensures { result ≡ spec.keeps_pointer_select context.now inst.now }
{
    context.pointers()
        && is_boolean(context.form_at(inst, 0))
        && context.type_at(inst, 1) == Some(inst.ty)
        && context.type_at(inst, 2) == Some(inst.ty)
        && is_buffer_pointer(context.form(inst.ty))
}

/// Whether a choice keeps the rule of lanes, or that of pointers.
pub fn keeps_select(context: &Context, inst: &Inst) -> bool
    ensures { result ≡ spec.keeps_select context.now inst.now }
{
    keeps_lanes(context, inst) || keeps_pointer_select(context, inst)
}

/// Whether a chain with an element keeps its rule.
pub fn keeps_ptr_chain(context: &Context, inst: &Inst) -> bool
    ensures { result ≡ spec.keeps_ptr_chain context.now inst.now }
{
    match context.pointee_at(inst, 0) {
        Some(p) => p.class == STORAGE_BUFFER
            && context.is_integer_at(inst, 1)
            && reaches(context, inst, 2, p),
        None => false,
    }
}

/// Whether a comparison is of two pointers of one type, and gives a Boolean.
pub fn keeps_ptr_equal(context: &Context, inst: &Inst) -> bool
    ensures { result ≡ spec.keeps_ptr_equal context.now inst.now }
{
    if !is_boolean(context.form(inst.ty)) {
        return false;
    }
    match context.type_at(inst, 0) {
        Some(ty) => context.type_at(inst, 1) == Some(ty) && is_buffer_pointer(context.form(ty)),
        None => false,
    }
}
