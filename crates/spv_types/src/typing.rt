//! The form that a type instruction defines.
ghost use Rattle.std.specs.Prelude.{◌≡◌, IfOk};
ghost use Rattle.spv_types.specs.Typing as spec;

use crate::forms::{Form, Member};
use spv_base::{Inst, Items, NoMemory, Operand};
use spv_index::{Index, id_in, id_operand, literal_operand, operands_from};
use spv_ops::{decoration, op};
use std::alloc::Global;

/// The form that an instruction defines, where it is a type instruction and has the operands of one.
#[tactic(auto, unfolding(crate::specs::Typing::defined_form))]
pub fn defined_form(alloc: Global, index: &Index, inst: &Inst) -> Result<Option<Form>, NoMemory>
    ensures { IfOk result (λ form. form ≡ spec.defined_form index.now.insts inst.now) }
{
    Ok(match inst.op {
        op::TYPE_VOID => Some(Form::Void),
        op::TYPE_BOOL => Some(Form::Bool),
        op::TYPE_INT => integer_form(inst),
        op::TYPE_VECTOR => vector_form(inst),
        op::TYPE_ARRAY => array_form(index, inst),
        op::TYPE_RUNTIME_ARRAY => runtime_form(index, inst),
        op::TYPE_STRUCT => struct_form(alloc, index, inst)?,
        op::TYPE_POINTER => pointer_form(inst),
        op::TYPE_FUNCTION => function_form(alloc, inst)?,
        _ => None,
    })
}

fn integer_form(inst: &Inst) -> Option<Form>
    ensures { result ≡ spec.integer_form inst.now }
{
    let width = literal_operand(inst, 0)?;
    let sign = literal_operand(inst, 1)?;
    Some(Form::Int { width, sign })
}

fn vector_form(inst: &Inst) -> Option<Form>
    ensures { result ≡ spec.vector_form inst.now }
{
    let component = id_operand(inst, 0)?;
    let count = literal_operand(inst, 1)?;
    Some(Form::Vector { component, count })
}

fn array_form(index: &Index, inst: &Inst) -> Option<Form>
    ensures { result ≡ spec.array_form index.now.insts inst.now }
{
    Some(Form::Array {
        element: id_operand(inst, 0)?,
        length: None,
        stride: index.decoration(inst.id, decoration::ARRAY_STRIDE),
    })
}

fn runtime_form(index: &Index, inst: &Inst) -> Option<Form>
    ensures { result ≡ spec.runtime_form index.now.insts inst.now }
{
    Some(Form::Runtime {
        element: id_operand(inst, 0)?,
        stride: index.decoration(inst.id, decoration::ARRAY_STRIDE),
    })
}

fn struct_form(alloc: Global, index: &Index, inst: &Inst) -> Result<Option<Form>, NoMemory>
    ensures { IfOk result (λ form. form ≡ spec.struct_form index.now.insts inst.now) }
{
    let Some(members) = members(alloc, index, inst.id, inst.operands.as_slice())? else {
        return Ok(None);
    };
    let block = index.is_decorated(inst.id, decoration::BLOCK);
    Ok(Some(Form::Struct { members, block }))
}

fn pointer_form(inst: &Inst) -> Option<Form>
    ensures { result ≡ spec.pointer_form inst.now }
{
    let class = literal_operand(inst, 0)?;
    let target = id_operand(inst, 1)?;
    Some(Form::Pointer { class, target })
}

fn function_form(alloc: Global, inst: &Inst) -> Result<Option<Form>, NoMemory>
    ensures { IfOk result (λ form. form ≡ spec.function_form inst.now) }
{
    let Some(returns) = id_operand(inst, 0) else {
        return Ok(None);
    };
    let Some(parameters) = ids(alloc, operands_from(inst, 1))? else {
        return Ok(None);
    };
    Ok(Some(Form::Function {
        returns,
        parameters,
    }))
}

/// The members of a struct, each with its Offset, where each operand is an id.
fn members(
    alloc: Global,
    index: &Index,
    id: u32,
    operands: &[Operand],
) -> Result<Option<Items<Member>>, NoMemory>
    ensures { IfOk result (λ members. members ≡ spec.members_from index.now.insts id 0 operands.now) }
{
    let mut members = Items::new(alloc);
    for (n, operand) in operands.iter().enumerate() {
        let Some(ty) = id_in(operand) else {
            return Ok(None);
        };
        let Ok(member) = u32::try_from(n) else {
            return Err(NoMemory);
        };
        let offset = index.member_decoration(id, member, decoration::OFFSET);
        members.push(Member { ty, offset })?;
    }
    Ok(Some(members))
}

/// The ids that some operands are, where each is one.
fn ids(alloc: Global, operands: &[Operand]) -> Result<Option<Items<u32>>, NoMemory>
    ensures { IfOk result (λ ids. ids ≡ spec.ids_in operands.now) }
{
    let mut ids = Items::new(alloc);
    for operand in operands {
        let Some(id) = id_in(operand) else {
            return Ok(None);
        };
        ids.push(id)?;
    }
    Ok(Some(ids))
}
