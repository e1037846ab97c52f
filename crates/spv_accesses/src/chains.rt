//! Access chains (SPIR-V 1.6 section 3.42.8, OpAccessChain, OpInBoundsAccessChain and OpPtrAccessChain).
ghost use Rattle.std.specs.Prelude.{◌≡◌, ℕ, ◌≤◌, ◌<◌, IfOk, length, true};
ghost use Rattle.std.specs.Result.{result_map_both};
ghost use Rattle.spv_base.specs.Answers.{Answers};
ghost use Rattle.spv_base.specs.declared.values.Value.{Value};
ghost use Rattle.spv_operands.specs.Operands.{IsPlain, shown};
ghost use Rattle.spv_state.specs.Actions.{action_of};
ghost use Rattle.spv_sites.specs.Chains as chains;
ghost use Rattle.spv_accesses.specs.PointerSites as sites;
ghost use Rattle.spv_sites.specs.Planned.{IsDue, IsTaken, PlannedFits};
ghost use Rattle.spv_sites.specs.Sites as spec;

use crate::atomics::scalar;
use crate::kept::{chain_is_kept, ptr_chain_is_kept};
use spv_base::{Cell, Fail, MemErr, Pointer};
use spv_operands::Operand;
use spv_operands::laws::{constants_are_meant, operands_have_shapes};
use spv_sites::{Cause, Control, Effect, Gain, Site};
use spv_state::Action;

/// The cells of the operands from a number on, one each: the indexes. F4 where one has no value.
fn indexes_from(site: &Site, first: usize) -> Result<Vec<Cell>, Fail<Cause>>
    requires { (n : ℕ) → first ≤ n → n < length site.now.inst.operands → spec.is_data_at site.now.program.accepted site.now.inst n ≡ true }
    ensures { Answers (chains.indexes_from first (spec.values site.now) site.now.inst) (result_map_both (λ cs. cs.items) (λ e. e) result) }
{
    let mut cells = Vec::new(site.alloc());
    for n in first..site.inst().operands.len() {
        let index = site.value(n)?;
        cells.extend_from_slice(index.part().cells())?;
    }
    Ok(cells)
}

/// The pointer that an operand is, with further indexes. F2 where one of them is not defined.
fn chained_pointer(site: &Site, at: &Operand, indexes: &[Cell]) -> Result<Pointer, Fail<Cause>>
    requires { IsPlain at.now }
    ensures { Answers (chains.chained_pointer (shown at.now) indexes.now) result }
{
    let Some(reference) = at.pointer(site.alloc()) else {
        return Err(Fail::Refused(Cause::OutOfBounds));
    };
    match spv_mem::chain(site.alloc(), reference.pointer(), indexes) {
        Ok(pointer) => Ok(pointer),
        Err(MemErr::UndefinedIndex) => Err(Fail::Refused(Cause::UndefinedIndex)),
        Err(MemErr::OutOfBounds) => unreachable!(),
        Err(MemErr::NoMemory) => Err(Fail::NoMemory),
    }
}

/// OpAccessChain and OpInBoundsAccessChain: the register takes the base's pointer with further indexes. Whether they are in range is
/// looked at by the accesses through it.
pub fn chain(site: &Site) -> Result<Effect, Fail<Cause>>
    requires { action_of site.now.inst ≡ Action.Chain }
    ensures due { (v : Value) → IsDue (spec.due site.now) v result }
    ensures fits { (v : Value) → PlannedFits site.now.program site.now.state site.now.inv site.now.inst v result }
    ensures taken { (v : Value) → IfOk result (λ e. IsTaken site.now.state site.now.inv e v) }
{
    operands_have_shapes();
    constants_are_meant();
    chain_is_kept(site);
    site.is_reached();
    let _insts = site.accepted().insts();
    let base = site.operand(0)?;
    let indexes = indexes_from(site, 1)?;
    let pointer = chained_pointer(site, &base, indexes.as_slice())?;
    let boxed = Box::new(site.alloc(), pointer)?;
    Ok(Effect {
        store: None,
        gain: Gain::Pointer(boxed),
        control: Control::Next,
    })
}

/// The pointer that an operand is, from another element on and with further indexes. F2 where one of these is not defined; F3 where the
/// element is not 0 and the pointer has no last index that chooses an element of an array.
fn moved_pointer(
    site: &Site,
    at: &Operand,
    element: Cell,
    indexes: &[Cell],
) -> Result<Pointer, Fail<Cause>>
    requires { IsPlain at.now }
    ensures { Answers (sites.moved_pointer site.now (shown at.now) element indexes.now) result }
{
    let alloc = site.alloc();
    let Some(reference) = at.pointer(alloc) else {
        return Err(Fail::Refused(Cause::OutOfBounds));
    };
    let memory = site.memory();
    match memory.ptr_chain(alloc, reference.pointer(), element, indexes) {
        Ok(moved) => Ok(moved),
        Err(MemErr::UndefinedIndex) => Err(Fail::Refused(Cause::UndefinedIndex)),
        Err(MemErr::OutOfBounds) => Err(Fail::Refused(Cause::OutOfBounds)),
        Err(MemErr::NoMemory) => Err(Fail::NoMemory),
    }
}

/// OpPtrAccessChain: the register takes the base's pointer from another element on, with further indexes. Whether there are such parts is
/// looked at by the accesses through it.
pub fn ptr_chain(site: &Site) -> Result<Effect, Fail<Cause>>
    requires { action_of site.now.inst ≡ Action.PtrChain }
    ensures due { (v : Value) → IsDue (spec.due site.now) v result }
    ensures fits { (v : Value) → PlannedFits site.now.program site.now.state site.now.inv site.now.inst v result }
    ensures taken { (v : Value) → IfOk result (λ e. IsTaken site.now.state site.now.inv e v) }
{
    operands_have_shapes();
    constants_are_meant();
    ptr_chain_is_kept(site);
    site.is_reached();
    let _insts = site.accepted().insts();
    let base = site.operand(0)?;
    let element = scalar(site, 1)?;
    let indexes = indexes_from(site, 2)?;
    let pointer = moved_pointer(site, &base, element, indexes.as_slice())?;
    let boxed = Box::new(site.alloc(), pointer)?;
    Ok(Effect {
        store: None,
        gain: Gain::Pointer(boxed),
        control: Control::Next,
    })
}
