//! The variables that a module declares (SPIR-V 1.6 section 3.42.8, OpVariable).
ghost use Rattle.std.specs.Prelude.{◌≡◌, ◌++◌, [], IfOk, OnOk};
ghost use Rattle.std.specs.List.{cons_option};
ghost use Rattle.spv_initial.specs.Variables as spec;

use spv_base::{Inst, NoMemory};
use spv_index::id_operand;
use spv_mem::conditions::may_be_target;
use spv_ops::{op, storage_class};
use spv_types::TypeTable;
use spv_types::queries::{Pointed, pointee};
use std::alloc::Global;

/// A variable: the id of the pointer to it, its storage class, the type of its value, and the id of its initializer, where it has
/// one.
#[derive(Clone, Copy)]
pub struct Declared {
    pub id: u32,
    pub class: u32,
    pub target: u32,
    pub initializer: Option<u32>,
}

/// Whether a variable of a storage class may have values of a type.
fn may_hold(types: &TypeTable, class: u32, ty: u32) -> bool
    ensures { result ≡ spec.may_hold types.now class ty }
{
    types.is_data(ty)
        && (types.cells(ty).is_some()
            || class == storage_class::STORAGE_BUFFER && may_be_target(types, ty))
}

/// The variable of an instruction with a pointer type, where it may have values of the type's target.
fn declared_as(types: &TypeTable, inst: &Inst, pointed: Pointed) -> Option<Declared>
    ensures { result ≡ spec.declared_as types.now inst.now pointed }
{
    if may_hold(types, pointed.class, pointed.target) {
        Some(Declared {
            id: inst.id,
            class: pointed.class,
            target: pointed.target,
            initializer: id_operand(inst, 1),
        })
    } else {
        None
    }
}

/// The variable that an instruction declares, where it declares one.
#[tactic(auto, unfolding(crate::specs::Variables::declared_by))]
fn declared_by(types: &TypeTable, inst: &Inst) -> Option<Declared>
    ensures { result ≡ spec.declared_by types.now inst.now }
{
    if inst.op == op::VARIABLE && 0 < inst.id {
        declared_as(types, inst, pointee(types.form(inst.ty))?)
    } else {
        None
    }
}

/// Adds a variable to a list, where there is one.
fn push_some(list: &mut Vec<Declared>, declared: Option<Declared>) -> Result<(), NoMemory>
    ensures { OnOk result (list.new.items ≡ list.old.items ++ cons_option declared []) }
{
    match declared {
        Some(declared) => Ok(list.push(declared)?),
        None => Ok(()),
    }
}

/// The variables that some instructions declare, in their order.
#[tactic(auto, unfolding(crate::specs::Variables::declared_in))]
pub fn declared_in(
    alloc: Global,
    types: &TypeTable,
    insts: &[Inst],
) -> Result<Vec<Declared>, NoMemory>
    ensures { IfOk result (λ list. list.items ≡ spec.declared_in types.now insts.now) }
{
    let mut list = Vec::new(alloc);
    for inst in insts {
        push_some(&mut list, declared_by(types, inst))?;
    }
    Ok(list)
}

/// The id of each variable with the type of its value.
pub fn targets_of(alloc: Global, list: &[Declared]) -> Result<Vec<(u32, u32)>, NoMemory>
    ensures { IfOk result (λ targets. targets.items ≡ spec.targets_of list.now) }
{
    let mut targets = Vec::with_capacity(alloc, list.len())?;
    for declared in list {
        targets.push((declared.id, declared.target))?;
    }
    Ok(targets)
}
