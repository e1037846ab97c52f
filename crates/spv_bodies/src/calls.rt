//! The rules of functions, their parameters and calls.
ghost use Rattle.std.specs.Prelude.{◌≡◌, option_copied};
ghost use Rattle.spv_bodies.specs.Calls as spec;

use crate::context::Context;
use spv_base::{Inst, Operand};
use spv_index::{id_operand, operands_from};
use spv_ops::op;
use spv_types::Form;
use spv_types::queries::{parameters_in, return_type};

/// How many parameters stand before the first block.
fn parameters_ahead(insts: &[Inst]) -> usize
    ensures { result ≡ spec.parameters_ahead insts.now }
{
    let mut count = 0;
    for inst in insts {
        match inst.op {
            op::FUNCTION | op::LABEL => return count,
            op::FUNCTION_PARAMETER => count += 1,
            _ => {}
        }
    }
    count
}

/// Whether a function of a form returns a type.
fn returns_type(form: Option<&Form>, ty: u32) -> bool
    ensures { result ≡ spec.returns_type (option_copied form.entry) ty }
{
    return_type(form) == Some(ty)
}

/// The form of the function type that an OpFunction names.
fn function_form<'a>(context: &'a Context, inst: &Inst) -> Option<&'a Form>
    ensures { option_copied result ≡ spec.function_form context.now inst.now }
{
    match id_operand(inst, 1) {
        Some(ty) => context.form(ty),
        None => None,
    }
}

/// Whether a function returns its result type, and has all the parameters of its type.
pub fn keeps_function(context: &Context, inst: &Inst, rest: &[Inst]) -> bool
    ensures { result ≡ spec.keeps_function context.now inst.now rest.now }
{
    let form = function_form(context, inst);
    returns_type(form, inst.ty) && parameters_in(form).len() <= parameters_ahead(rest)
}

/// The type of parameter `n` of a function type.
fn parameter_type(context: &Context, n: usize, ty: Option<u32>) -> Option<u32>
    ensures { result ≡ spec.parameter_type context.now n ty }
{
    parameters_in(context.form(ty?)).get(n).copied()
}

/// Whether parameter number `n` of a function with a function type has the type that this names.
pub fn keeps_parameter(context: &Context, ty: Option<u32>, n: usize, inst: &Inst) -> bool
    ensures { result ≡ spec.keeps_parameter context.now ty n inst.now }
{
    parameter_type(context, n, ty) == Some(inst.ty)
}

/// Whether there is one operand for each type, and of this type.
fn are_of(context: &Context, types: &[u32], operands: &[Operand]) -> bool
    ensures { result ≡ spec.are_of context.now types.now operands.now }
{
    if types.len() != operands.len() {
        return false;
    }
    for (n, ty) in types.iter().enumerate() {
        if context.type_in(&operands[n]) != Some(*ty) {
            return false;
        }
    }
    true
}

/// The form of the function type of the function with an id.
fn callee_form<'a>(context: &'a Context, id: u32) -> Option<&'a Form>
    ensures { option_copied result ≡ spec.callee_form context.now id }
{
    match context.defining(id) {
        Some(inst) if inst.op == op::FUNCTION => function_form(context, inst),
        _ => None,
    }
}

/// The form of the function type of the function that a call names.
fn called_form<'a>(context: &'a Context, inst: &Inst) -> Option<&'a Form>
    ensures { option_copied result ≡ spec.called_form context.now inst.now }
{
    match id_operand(inst, 0) {
        Some(id) => callee_form(context, id),
        None => None,
    }
}

/// Whether a call gives what the function returns, which it may give, and has an argument for each parameter.
pub fn keeps_call(context: &Context, inst: &Inst) -> bool
    ensures { result ≡ spec.keeps_call context.now inst.now }
{
    let form = called_form(context, inst);
    returns_type(form, inst.ty)
        && context.is_given(context.form(inst.ty))
        && are_of(context, parameters_in(form), operands_from(inst, 1))
}
