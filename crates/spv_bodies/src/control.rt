//! The rules of phis and of the ends of blocks.
ghost use Rattle.std.specs.Prelude.{◌≡◌, true};
ghost use Rattle.spv_bodies.specs.Control as spec;

use crate::context::Context;
use spv_base::{Inst, Operand};
use spv_types::queries::{is_boolean, is_void};

/// Whether every second operand, the first among them, is a value of a type.
fn are_values(context: &Context, ty: u32, operands: &[Operand]) -> bool
    ensures { result ≡ spec.are_values context.now ty true operands.now }
{
    let mut is_value = true;
    for operand in operands {
        if is_value && context.type_in(operand) != Some(ty) {
            return false;
        }
        is_value = !is_value;
    }
    true
}

/// Whether a phi has values of its result's type, which it may give.
pub fn keeps_phi(context: &Context, inst: &Inst) -> bool
    ensures { result ≡ spec.keeps_phi context.now inst.now }
{
    context.is_given(context.form(inst.ty))
        && are_values(context, inst.ty, inst.operands.as_slice())
}

/// Whether a condition is a Boolean.
pub fn keeps_branch(context: &Context, inst: &Inst) -> bool
    ensures { result ≡ spec.keeps_branch context.now inst.now }
{
    is_boolean(context.form_at(inst, 0))
}

/// Whether a selector is a scalar integer.
pub fn keeps_switch(context: &Context, inst: &Inst) -> bool
    ensures { result ≡ spec.keeps_switch context.now inst.now }
{
    context.is_integer_at(inst, 0)
}

/// Whether a function that returns a type may return no value.
pub fn keeps_return(context: &Context, returns: Option<u32>) -> bool
    ensures { result ≡ spec.keeps_return context.now returns }
{
    match returns {
        Some(ty) => is_void(context.form(ty)),
        None => false,
    }
}

/// Whether a value is of the type that its function returns, which it may return.
pub fn keeps_return_value(context: &Context, returns: Option<u32>, inst: &Inst) -> bool
    ensures { result ≡ spec.keeps_return_value context.now returns inst.now }
{
    match returns {
        Some(ty) => context.type_at(inst, 0) == Some(ty) && context.is_given(context.form(ty)),
        None => false,
    }
}
