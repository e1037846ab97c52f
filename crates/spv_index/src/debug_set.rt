//! The instructions of the extended set NonSemantic.Shader.DebugInfo.100 among those of a module.
ghost use Rattle.std.specs.Prelude.{◌≡◌, option_copied};
ghost use Rattle.std.specs.Option.{option_and_then};
ghost use Rattle.spv_index.specs.DebugSet as spec;
ghost use Rattle.spv_index.specs.Definitions.{defining};
ghost use Rattle.spv_index.specs.Operands.{id_operand};

use crate::index::Index;
use crate::operands::{id_operand, literal_operand, text_operand};
use spv_base::Inst;
use spv_ops::op;

/// The name of the set.
const SET: &[u8] = b"NonSemantic.Shader.DebugInfo.100";

/// Whether an import is of the set.
fn is_set(inst: &Inst) -> bool
    ensures { result ≡ spec.is_set inst.now }
{
    if inst.op != op::EXT_INST_IMPORT {
        return false;
    }
    match text_operand(inst, 0) {
        Some(name) => name == SET,
        None => false,
    }
}

/// The import of the set that an instruction names.
fn set_of<'a>(index: &'a Index, inst: &Inst) -> Option<&'a Inst>
    ensures { option_copied result ≡ option_and_then (defining index.now.insts) (id_operand inst.now 0) }
{
    index.defining(id_operand(inst, 0)?)
}

/// Whether the set that an instruction names is this one.
fn names_set(index: &Index, inst: &Inst) -> bool
    ensures { result ≡ spec.names_set index.now.insts inst.now }
{
    match set_of(index, inst) {
        Some(import) => is_set(import),
        None => false,
    }
}

/// The number of an instruction of the set, and None for another one.
#[tactic(auto, unfolding(crate::specs::DebugSet::set_number))]
pub fn set_number(index: &Index, inst: &Inst) -> Option<u32>
    ensures { result ≡ spec.set_number index.now.insts inst.now }
{
    if inst.op != op::EXT_INST || !names_set(index, inst) {
        return None;
    }
    literal_operand(inst, 1)
}
