//! The operands of instructions in a frame.
ghost use Rattle.std.specs.Prelude.{◌≡◌, ◌==◌, IfOk, IfSome, None, Some, false, if◌then◌else◌, option_map};
ghost use Rattle.std.specs.Option.{option_map_or};
ghost use Rattle.spv_base.specs.Entries.{reads};
ghost use Rattle.spv_frame.specs.Functions.{registers_of};
ghost use Rattle.spv_mem.specs.Blanks.{blank_of};
ghost use Rattle.spv_operands.specs.Operands.{IsHeld, IsPlain, shown};
ghost use Rattle.spv_operands.specs.Shapes.{AreShaped};
ghost use Rattle.spv_operands.specs.Values as spec;
ghost use Rattle.spv_plans.specs.Plans.{id_at, plans_in};
ghost use Rattle.spv_plans.specs.Registered.{HasApart, IsOfFunction};

use crate::constants::constant;
use crate::laws::constants_are_meant;
use crate::operands::Operand;
use spv_base::{Inst, NoMemory, Root};
use spv_frame::{Frame, Place, Plan, Plans, Register};
use spv_index::{id_operand, literal_operand};
use spv_mem::Variable;
use spv_ops::storage_class;
use spv_plans::laws::{
    plans_are_of_functions, registers_are_apart, registers_are_meant, registers_have_types,
    registers_stand_once,
};
use spv_valid::{Meaning, Module};
use std::alloc::Global;

/// What the register at a place of a frame holds, if it holds something.
#[inline(always)]
fn operand_at<'a>(plan: &Plan, frame: &'a Frame, id: u32, place: Place) -> Option<Operand<'a>>
    requires plan { frame.now.plan ≡ plan.now }
    requires stands { id_at plan.now.values plan.now.pointers place ≡ Some id }
    requires apart { HasApart plan.now }
    ensures value { option_map shown result ≡ spec.register_value frame.now id }
    ensures held { IfSome result (IsHeld frame.now id) }
{
    match place {
        Place::Value(number) => match frame.value(plan.slot(number)) {
            Some(part) => Some(Operand::Value(part)),
            None => None,
        },
        Place::Pointer(number) => match frame.pointer(plan.pointer_slot(number)) {
            Some(pointer) => Some(Operand::Pointer(pointer)),
            None => None,
        },
    }
}

/// What the register that was found for an id holds, if it is one of a frame's function and holds something.
#[inline(always)]
fn register<'a>(
    accepted: &Module,
    plans: &Plans,
    frame: &'a Frame,
    id: u32,
    found: Register,
) -> Option<Operand<'a>>
    requires plans { plans.now ≡ plans_in accepted.now }
    requires frame { IsOfFunction accepted.now frame.now.plan }
    requires found { reads id (registers_of plans.now) ≡ Some found }
    ensures value { option_map shown result ≡ spec.register_value frame.now id }
    ensures held { IfSome result (IsHeld frame.now id) }
{
    plans_are_of_functions();
    registers_are_apart();
    registers_stand_once();
    let _insts = accepted.insts();
    let plan = plans.at(found.plan);
    if plan.function() == frame.function() {
        operand_at(plan, frame, id, found.place)
    } else {
        None
    }
}

/// Whether an invocation has variables of a storage class for itself.
fn is_own(class: u32) -> bool
    ensures { result ≡ spec.is_own class }
{
    class == storage_class::INPUT || class == storage_class::PRIVATE
}

/// The storage class of the variable with an id.
fn storage_class_of(accepted: &Module, id: u32) -> Option<u32>
    ensures { result ≡ spec.storage_class accepted.now.insts id }
{
    literal_operand(accepted.defining(id)?, 0)
}

/// Whether an invocation has the variable with an id for itself.
fn is_own_variable(accepted: &Module, id: u32) -> bool
    ensures { result ≡ option_map_or spec.is_own (spec.storage_class accepted.now.insts id) false }
{
    match storage_class_of(accepted, id) {
        Some(class) => is_own(class),
        None => false,
    }
}

/// The root that a variable outside functions is.
pub fn module_root(accepted: &Module, id: u32) -> Root
    ensures { result ≡ spec.module_root accepted.now.insts id }
{
    if is_own_variable(accepted, id) {
        Root::Private(id)
    } else {
        Root::Shared(id)
    }
}

/// The variable with an id of a function, where a frame at a depth is one of this function.
fn local(frame: &Frame, depth: u32, function: u32, id: u32) -> Option<Root>
    ensures { result ≡ (if frame.now.plan.function == function then Some (Root.Local depth id) else None) }
{
    if frame.function() == function {
        Some(Root::Local { depth, id })
    } else {
        None
    }
}

/// The undefined value of a type.
fn undefined<'a>(
    alloc: Global,
    accepted: &'a Module,
    ty: u32,
) -> Result<Option<Operand<'a>>, NoMemory>
    ensures value { IfOk result (λ o. option_map shown o ≡ Some (blank_of accepted.now.types 0 ty)) }
    ensures plain { IfOk result (λ o. IfSome o IsPlain) }
{
    let variable = Variable::blank(alloc, accepted.types(), ty, 0)?;
    Ok(Some(Operand::Undefined(Box::new(alloc, variable)?)))
}

/// What an id stands for that is neither a register that holds something nor a constant. It takes memory only for an undefined value.
fn by_meaning<'a>(
    alloc: Global,
    accepted: &'a Module,
    frame: &Frame,
    depth: u32,
    id: u32,
    meaning: Meaning,
) -> Result<Option<Operand<'a>>, NoMemory>
    requires register { spec.register_value frame.now id ≡ None }
    requires constant { reads id accepted.now.constants ≡ None }
    ensures value { IfOk result (λ o. option_map shown o ≡ spec.value_by accepted.now frame.now depth id meaning) }
    ensures plain { IfOk result (λ o. IfSome o IsPlain) }
{
    match meaning {
        Meaning::Undefined(ty) => undefined(alloc, accepted, ty),
        Meaning::ModuleVariable => Ok(Some(Operand::Variable(module_root(accepted, id)))),
        Meaning::Variable(function) => match local(frame, depth, function, id) {
            Some(root) => Ok(Some(Operand::Variable(root))),
            None => Ok(None),
        },
        Meaning::TypeDefinition
        | Meaning::Constant
        | Meaning::Register(_)
        | Meaning::Label(_)
        | Meaning::Function
        | Meaning::Other => Ok(None),
    }
}

/// What an id stands for that is no register that holds something. It takes memory only for an undefined value.
#[inline(never)]
fn elsewhere<'a>(
    alloc: Global,
    accepted: &'a Module,
    frame: &Frame,
    depth: u32,
    id: u32,
) -> Result<Option<Operand<'a>>, NoMemory>
    requires { spec.register_value frame.now id ≡ None }
    ensures value { IfOk result (λ o. option_map shown o ≡ spec.value_of accepted.now frame.now depth id) }
    ensures plain { IfOk result (λ o. IfSome o IsPlain) }
{
    constants_are_meant();
    let _insts = accepted.insts();
    if let Some(part) = constant(accepted, id) {
        return Ok(Some(Operand::Value(part)));
    }
    match accepted.meaning(id) {
        Some(meaning) => by_meaning(alloc, accepted, frame, depth, id, meaning),
        None => Ok(None),
    }
}

/// What an id stands for where an instruction of a frame at a depth names it; none where it stands for nothing there, as a register
/// that holds nothing, a type or a block. It takes memory only for the undefined value of an OpUndef outside functions. A frame's
/// function is one of the module, and its plan the one that is read off the module.
#[inline(always)]
pub fn operand<'a>(
    alloc: Global,
    accepted: &'a Module,
    plans: &Plans,
    frame: &'a Frame,
    depth: u32,
    id: u32,
) -> Result<Option<Operand<'a>>, NoMemory>
    requires plans { plans.now ≡ plans_in accepted.now }
    requires frame { IsOfFunction accepted.now frame.now.plan }
    ensures value { IfOk result (λ o. option_map shown o ≡ spec.value_of accepted.now frame.now depth id) }
    // A lent value is no pointer, where registers hold values of their types.
    ensures plain { ∥ AreShaped accepted.now frame.now ∥₁ → IfOk result (λ o. IfSome o IsPlain) }
{
    plans_are_of_functions();
    registers_are_meant();
    registers_have_types();
    registers_stand_once();
    let _insts = accepted.insts();
    match plans.register(id) {
        Some(found) => Ok(register(accepted, plans, frame, id, found)),
        None => elsewhere(alloc, accepted, frame, depth, id),
    }
}

/// What the operand with a number of an instruction stands for, where it is an id. Operands are counted from 0, behind the result type
/// and the result.
#[inline(always)]
pub fn operand_of<'a>(
    alloc: Global,
    accepted: &'a Module,
    plans: &Plans,
    frame: &'a Frame,
    depth: u32,
    inst: &Inst,
    n: usize,
) -> Result<Option<Operand<'a>>, NoMemory>
    requires plans { plans.now ≡ plans_in accepted.now }
    requires frame { IsOfFunction accepted.now frame.now.plan }
    ensures value { IfOk result (λ o. option_map shown o ≡ spec.operand_value accepted.now frame.now depth inst.now n) }
    ensures plain { ∥ AreShaped accepted.now frame.now ∥₁ → IfOk result (λ o. IfSome o IsPlain) }
{
    match id_operand(inst, n) {
        Some(id) => operand(alloc, accepted, plans, frame, depth, id),
        None => Ok(None),
    }
}
