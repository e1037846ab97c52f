//! Where a decoration SpecId stands on what takes none.
ghost use Rattle.std.specs.Prelude.{◌≡◌};
ghost use Rattle.spv_consts.specs.SpecIds as spec;

use crate::context::Context;
use crate::overrides::is_specializable;
use spv_base::{Inst, lower};
use spv_index::{id_operand, literal_operand};
use spv_ops::{decoration, op};

/// Whether an instruction is a decoration SpecId, of an id or of a member.
fn is_spec_id(inst: &Inst) -> bool
    ensures { result ≡ spec.is_spec_id inst.now }
{
    match inst.op {
        op::DECORATE => literal_operand(inst, 1) == Some(decoration::SPEC_ID),
        op::MEMBER_DECORATE => literal_operand(inst, 2) == Some(decoration::SPEC_ID),
        _ => false,
    }
}

/// The later word of a decoration SpecId and of what it decorates, where that takes none.
fn wrong_on(mark: &Inst, inst: &Inst) -> Option<u32>
    ensures { result ≡ spec.wrong_on mark.now inst.now }
{
    if mark.op == op::DECORATE && is_specializable(inst.op) {
        None
    } else {
        Some(mark.word.max(inst.word))
    }
}

/// The word where a decoration is a SpecId on what takes none.
fn wrong_spec_id(context: &Context, mark: &Inst) -> Option<u32>
    ensures { result ≡ spec.wrong_spec_id context.now.all mark.now }
{
    if !is_spec_id(mark) {
        return None;
    }
    let target = id_operand(mark, 0)?;
    let inst = context.index.defining(target)?;
    wrong_on(mark, inst)
}

/// The lowest word where a decoration is a SpecId on what takes none.
pub(crate) fn lowest_wrong(context: &Context, insts: &[Inst]) -> Option<u32>
    ensures { result ≡ spec.lowest_wrong context.now.all insts.now }
{
    let mut lowest = None;
    for inst in insts {
        lowest = lower(lowest, wrong_spec_id(context, inst));
    }
    lowest
}
