//! The rules of decorations and of the blocks that variables point to.
ghost use Rattle.std.specs.Prelude.{◌≡◌, ◌||◌, ◌&&◌, ◌==◌, [], ℕ, List, false, OnOk, length};
ghost use Rattle.std.specs.Option.{is_some, option_and_then, option_map_or};
ghost use Rattle.std.specs.BTreeSet.{contains};
ghost use Rattle.spv_base.specs.Answers.{Answers};
ghost use Rattle.spv_base.specs.declared.instructions.Inst.{Inst as Instruction};
ghost use Rattle.spv_index.specs.Definitions.{defining};
ghost use Rattle.spv_index.specs.Keys.{pair_cmp};
ghost use Rattle.spv_types.specs.Types.{form_of};
ghost use Rattle.spv_types.specs.Build.{unless_refused};
ghost use Rattle.spv_types.specs.Measured.{AreLaid};
ghost use Rattle.spv_types.specs.InterfaceBlocks.{ArePlaces, is_at, is_block_class, is_block_variable, is_buffer_class, keeps_block, keeps_decoration, keeps_layout, keeps_pair, module_breaches, layout_of, points_to_unlaid};

use crate::forms::Form;
use crate::layout::{are_laid, is_laid, sizes};
use crate::table::TypeTable;
use spv_base::{Fail, Inst, NoMemory, Refusal};
use spv_index::{Index, id_operand, literal_operand};
use spv_ops::{decoration, op, storage_class};
use std::alloc::Global;
use std::collections::BTreeSet;

/// The code of the rules of layout.
const LAYOUT_CODE: u8 = 13;

/// The places of buffer variables: their descriptor sets and bindings.
type Places = BTreeSet<(u32, u32)>;

fn breach(inst: &Inst) -> Fail<Refusal>
    ensures { result ≡ Fail.Refused (record { code = 13; word = inst.now.word }) }
{
    Fail::Refused(Refusal {
        code: LAYOUT_CODE,
        word: inst.word,
    })
}

fn is_buffer_class(class: u32) -> bool
    ensures { result ≡ is_buffer_class class }
{
    class == storage_class::UNIFORM || class == storage_class::STORAGE_BUFFER
}

/// Whether there is a storage class, and it is one of buffers.
fn has_buffer_class(class: Option<u32>) -> bool
    ensures { result ≡ option_map_or is_buffer_class class false }
{
    match class {
        Some(class) => is_buffer_class(class),
        None => false,
    }
}

/// Whether there is a storage class, and its variables point to blocks.
fn has_block_class(class: Option<u32>) -> bool
    ensures { result ≡ option_map_or is_block_class class false }
{
    match class {
        Some(class) => is_buffer_class(class) || class == storage_class::PUSH_CONSTANT,
        None => false,
    }
}

/// Whether an instruction is a variable of a class whose variables point to blocks.
pub fn is_block_variable(inst: &Inst) -> bool
    ensures { result ≡ is_block_variable inst.now }
{
    inst.op == op::VARIABLE && has_block_class(literal_operand(inst, 0))
}

/// Whether there is an id, and an instruction defines it.
fn is_defined(index: &Index, id: Option<u32>) -> bool
    ensures { result ≡ is_some (option_and_then (defining index.now.insts) id) }
{
    match id {
        Some(id) => index.defining(id).is_some(),
        None => false,
    }
}

/// Whether a decoration of some kind is not BufferBlock, or of an id that nothing defines.
fn keeps_decoration(index: &Index, inst: &Inst, kind: Option<u32>) -> bool
    ensures { result ≡ keeps_decoration index.now.insts inst.now kind }
{
    !(kind == Some(decoration::BUFFER_BLOCK) && is_defined(index, id_operand(inst, 0)))
}

/// Whether a descriptor set and a binding are there and not taken.
fn keeps_pair(places: &Places, set: Option<u32>, binding: Option<u32>) -> bool
    ensures { (all before : List Instruction) → ArePlaces all before (λ a b. contains pair_cmp places.now (a, b)) → result ≡ keeps_pair all before set binding }
{
    match (set, binding) {
        (Some(set), Some(binding)) => !places.contains(&(set, binding)),
        _ => false,
    }
}

/// Adds a descriptor set and a binding.
fn add_place(places: &mut Places, set: u32, binding: u32) -> Result<(), NoMemory>
    ensures { OnOk result ((a b : ℕ) → contains pair_cmp places.new (a, b) ≡ (contains pair_cmp places.old (a, b) || (set == a && binding == b))) }
{
    places.insert((set, binding))?;
    Ok(())
}

/// Adds the place of a buffer variable.
fn note_place(index: &Index, places: &mut Places, inst: &Inst) -> Result<(), NoMemory>
    ensures { OnOk result ((a b : ℕ) → contains pair_cmp places.new (a, b) ≡ (contains pair_cmp places.old (a, b) || is_at index.now.insts a b inst.now)) }
{
    if inst.op != op::VARIABLE {
        return Ok(());
    }
    if !has_buffer_class(literal_operand(inst, 0)) {
        return Ok(());
    }
    let Some(set) = index.decoration(inst.id, decoration::DESCRIPTOR_SET) else {
        return Ok(());
    };
    let Some(binding) = index.decoration(inst.id, decoration::BINDING) else {
        return Ok(());
    };
    add_place(places, set, binding)
}

/// Whether a type is a pointer type whose target is a Block struct that isn't laid out.
fn points_to_unlaid(types: &TypeTable, laid: &[bool], ty: u32) -> bool
    requires laid { AreLaid types.now laid.now }
    requires all { length laid.now ≡ length types.now }
    ensures { result ≡ points_to_unlaid types.now (form_of types.now ty) }
{
    match types.form(ty) {
        Some(Form::Pointer { target, .. }) => {
            types.is_block(*target) && !is_laid(types, laid, *target)
        }
        _ => false,
    }
}

/// Whether the block that a variable of a block class points to is laid out, and a buffer has a place of its own.
fn keeps_block(
    types: &TypeTable,
    index: &Index,
    laid: &[bool],
    places: &Places,
    inst: &Inst,
) -> bool
    requires laid { AreLaid types.now laid.now }
    requires all { length laid.now ≡ length types.now }
    ensures { (before : List Instruction) → ArePlaces index.now.insts before (λ a b. contains pair_cmp places.now (a, b)) → result ≡ keeps_block index.now.insts types.now before inst.now }
{
    if points_to_unlaid(types, laid, inst.ty) {
        return false;
    }
    let set = index.decoration(inst.id, decoration::DESCRIPTOR_SET);
    let binding = index.decoration(inst.id, decoration::BINDING);
    literal_operand(inst, 0) == Some(storage_class::PUSH_CONSTANT)
        || keeps_pair(places, set, binding)
}

/// Whether an instruction keeps the rules of layout.
#[tactic(auto, unfolding(crate::specs::InterfaceBlocks::keeps_layout))]
fn keeps_layout(
    types: &TypeTable,
    index: &Index,
    laid: &[bool],
    places: &Places,
    inst: &Inst,
) -> bool
    requires laid { AreLaid types.now laid.now }
    requires all { length laid.now ≡ length types.now }
    ensures { (before : List Instruction) → ArePlaces index.now.insts before (λ a b. contains pair_cmp places.now (a, b)) → result ≡ keeps_layout index.now.insts types.now before inst.now }
{
    match inst.op {
        op::DECORATE => keeps_decoration(index, inst, literal_operand(inst, 1)),
        op::MEMBER_DECORATE => keeps_decoration(index, inst, literal_operand(inst, 2)),
        _ if is_block_variable(inst) => keeps_block(types, index, laid, places, inst),
        _ => true,
    }
}

/// Checks the layout of the blocks that variables point to.
///
/// Refuses M13: at the variable whose block, descriptor set or binding breaks a rule, or at a decoration BufferBlock.
#[tactic(auto, unfolding(crate::specs::InterfaceBlocks::layout_of))]
pub fn check_layout(alloc: Global, types: &TypeTable, index: &Index) -> Result<(), Fail<Refusal>>
    ensures { Answers (layout_of types.now index.now.insts) result }
{
    let sizes = sizes(alloc, types)?;
    let laid = are_laid(alloc, types, sizes.as_slice())?;
    check_blocks(alloc, types, index, laid.as_slice())
}

/// Refuses the first instruction that breaks a rule of layout.
pub(crate) fn check_blocks(
    alloc: Global,
    types: &TypeTable,
    index: &Index,
    laid: &[bool],
) -> Result<(), Fail<Refusal>>
    requires laid { AreLaid types.now laid.now }
    requires all { length laid.now ≡ length types.now }
    ensures { Answers (unless_refused tt (module_breaches index.now.insts types.now [] index.now.insts)) result }
{
    let insts = index.insts();
    let mut places = BTreeSet::new(alloc);
    for inst in insts {
        if !keeps_layout(types, index, laid, &places, inst) {
            return Err(breach(inst));
        }
        note_place(index, &mut places, inst)?;
    }
    Ok(())
}
