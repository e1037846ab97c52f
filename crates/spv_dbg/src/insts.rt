//! Debug instructions.
ghost use Rattle.std.specs.Prelude.{◌≡◌, ◌≤◌, slice_index, IfOk};
ghost use Rattle.spv_dbg.specs.Marks as spec;

use spv_base::{Inst, NoMemory, Operand, Places};
use spv_index::{id_in, id_operand, operands_from};
use std::alloc::Global;

/// An instruction of the set NonSemantic.Shader.DebugInfo.100: the number of its first word, its number in the set, its
/// result, and the ids behind set and number.
#[derive(Drop)]
pub struct DebugInst {
    pub word: u32,
    pub number: u32,
    pub id: u32,
    pub operands: Places,
}

/// The id that an operand is, and 0, which is no id, where it is none.
fn id_or_0(operand: &Operand) -> u32
    ensures { result ≡ spec.id_or_0 operand.now }
{
    id_in(operand).unwrap_or(0)
}

/// The ids behind set and number.
fn ids_behind(alloc: Global, inst: &Inst) -> Result<Vec<u32>, NoMemory>
    ensures { IfOk result (λ ids. ids.items ≡ spec.ids_behind inst.now) }
{
    Ok(
        operands_from(inst, 2)
            .iter()
            .map(|operand| id_or_0(operand))
            .collect(alloc)?,
    )
}

/// An instruction of the set with its number in it.
pub(crate) fn debug_inst(alloc: Global, number: u32, inst: &Inst) -> Result<DebugInst, NoMemory>
    ensures { IfOk result (λ d. d ≡ spec.debug_inst number inst.now) }
{
    let ids = ids_behind(alloc, inst)?;
    Ok(DebugInst {
        word: inst.word,
        number,
        id: inst.id,
        operands: Places::from_vec(ids),
    })
}

/// The id with a number among those behind set and number, and 0 where there is none.
pub(crate) fn operand_of(inst: &Inst, n: usize) -> u32
    requires { n ≤ 4 }
    ensures { result ≡ slice_index (spec.ids_behind inst.now) n }
{
    id_operand(inst, n + 2).unwrap_or(0)
}

/// The operand with a number, and 0 where there is none.
pub(crate) fn operand(ids: &[u32], n: usize) -> u32
    ensures { result ≡ slice_index ids.now n }
{
    ids.get(n).copied().unwrap_or(0)
}
