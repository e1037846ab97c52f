//! Branches (SPIR-V 1.6 section 2.16.1): their targets, and the literals of switches.
ghost use Rattle.std.specs.Prelude.{◌≡◌, ◌==◌, ◌++◌, IfOk, true, if◌then◌else◌};
ghost use Rattle.std.specs.List.{flat_map, list_all};
ghost use Rattle.std.specs.Option.{option_to_list};
ghost use Rattle.spv_base.specs.Lowest.{lowest};
ghost use Rattle.spv_cfg.specs.Branches as spec;

use crate::labels::{is_target, selector_width};
use crate::switches::{is_switch_right, label_list, switch_targets};
use spv_base::{Inst, NoMemory, lower};
use spv_index::classes::Class;
use spv_index::positions::Position;
use spv_index::stands::Stands;
use spv_index::{Index, id_operand};
use spv_ops::op;
use std::alloc::Global;

/// Two labels, where they are there.
fn both(alloc: Global, one: Option<u32>, other: Option<u32>) -> Result<Vec<u32>, NoMemory>
    ensures { IfOk result (λ labels. labels.items ≡ option_to_list one ++ option_to_list other) }
{
    let mut labels = label_list(alloc, one)?;
    let more = label_list(alloc, other)?;
    labels.extend_from_slice(more.as_slice())?;
    Ok(labels)
}

/// The labels that a terminator may go to.
pub fn targets_of(alloc: Global, width: u32, inst: &Inst) -> Result<Vec<u32>, NoMemory>
    ensures { IfOk result (λ targets. targets.items ≡ spec.targets_of width inst.now) }
{
    if inst.op == op::BRANCH {
        label_list(alloc, id_operand(inst, 0))
    } else if inst.op == op::BRANCH_CONDITIONAL {
        both(alloc, id_operand(inst, 1), id_operand(inst, 2))
    } else if inst.op == op::SWITCH {
        switch_targets(alloc, width, inst)
    } else {
        Ok(Vec::new(alloc))
    }
}

/// Whether the operands that have a terminator's labels are there.
fn has_targets(inst: &Inst) -> bool
    ensures { result ≡ spec.has_targets inst.now }
{
    if inst.op == op::BRANCH {
        id_operand(inst, 0).is_some()
    } else if inst.op == op::BRANCH_CONDITIONAL {
        id_operand(inst, 1).is_some() && id_operand(inst, 2).is_some()
    } else if inst.op == op::SWITCH {
        id_operand(inst, 1).is_some()
    } else {
        true
    }
}

/// Whether all are labels of this function, but not its first.
fn are_targets(index: &Index, function: u32, targets: &[u32]) -> bool
    ensures { result ≡ list_all (spec.is_target index.now.insts function) targets.now }
{
    targets
        .iter()
        .all(|target| is_target(index, function, *target))
}

/// Whether the literals of a terminator are right, which only OpSwitch has.
fn are_literals_right(alloc: Global, width: u32, inst: &Inst) -> Result<bool, NoMemory>
    ensures { IfOk result (λ right. right ≡ (if inst.now.op == 251 then spec.is_switch_right width inst.now else true)) }
{
    if inst.op == op::SWITCH {
        is_switch_right(alloc, width, inst)
    } else {
        Ok(true)
    }
}

/// Whether the targets and the literals of a terminator are right.
fn is_branch_right(
    alloc: Global,
    index: &Index,
    function: u32,
    inst: &Inst,
) -> Result<bool, NoMemory>
    ensures { IfOk result (λ right. right ≡ spec.is_branch_right index.now.insts (spec.selector_width index.now.insts inst.now) function inst.now) }
{
    let width = selector_width(index, inst);
    let targets = targets_of(alloc, width, inst)?;
    let literals = are_literals_right(alloc, width, inst)?;
    Ok(has_targets(inst) && are_targets(index, function, targets.as_slice()) && literals)
}

/// The instruction, where it is a terminator whose targets or literals are not right.
fn breach_at(
    alloc: Global,
    index: &Index,
    position: Position,
    class: Class,
    inst: &Inst,
) -> Result<Option<u32>, NoMemory>
    ensures { IfOk result (λ breach. breach ≡ lowest (spec.branch_breach index.now.insts (record { position = position; class = class; inst = inst.now }))) }
{
    if !(class.is_terminator() && position.stage.in_block()) {
        return Ok(None);
    }
    if is_branch_right(alloc, index, position.function, inst)? {
        Ok(None)
    } else {
        Ok(Some(inst.word))
    }
}

/// The lowest word of a terminator whose targets or literals are not right.
pub fn branch_breach(alloc: Global, index: &Index, stands: &Stands) -> Result<Option<u32>, NoMemory>
    ensures { IfOk result (λ least. least ≡ lowest (flat_map (spec.branch_breach index.now.insts) stands.now)) }
{
    let mut least = None;
    for n in 0..stands.len() {
        let stand = stands.at(n);
        let next = breach_at(alloc, index, stand.position, stand.class, stand.inst)?;
        least = lower(least, next);
    }
    Ok(least)
}
