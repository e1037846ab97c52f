//! The operands of an instruction, by their numbers and from one on.
ghost use Rattle.std.specs.Prelude.{◌≡◌, drop, option_copied};
ghost use Rattle.spv_index.specs.Operands as spec;

use spv_base::{Inst, Operand};

/// The id that an operand is.
pub fn id_in(operand: &Operand) -> Option<u32>
    ensures { result ≡ spec.id_in operand.now }
{
    match operand {
        Operand::Id(id) => Some(*id),
        Operand::Lit(_) | Operand::Text(_) => None,
    }
}

/// The literal word that an operand is.
pub fn literal_in(operand: &Operand) -> Option<u32>
    ensures { result ≡ spec.literal_in operand.now }
{
    match operand {
        Operand::Lit(word) => Some(*word),
        Operand::Id(_) | Operand::Text(_) => None,
    }
}

/// The operand with a number, where it is an id. Operands are counted from 0, behind the result type and the result.
pub fn id_operand(inst: &Inst, n: usize) -> Option<u32>
    ensures { result ≡ spec.id_operand inst.now n }
{
    id_in(inst.operands.get(n)?)
}

/// The operand with a number, where it is a literal word. Operands are counted from 0, behind the result type and the result.
pub fn literal_operand(inst: &Inst, n: usize) -> Option<u32>
    ensures { result ≡ spec.literal_operand inst.now n }
{
    literal_in(inst.operands.get(n)?)
}

/// The bytes of the operand with a number, where it is a string. Operands are counted from 0, behind the result type and the
/// result.
pub fn text_operand(inst: &Inst, n: usize) -> Option<&[u8]>
    ensures { option_copied result ≡ spec.text_operand inst.now n }
{
    match inst.operands.get(n)? {
        Operand::Text(text) => Some(text.as_slice()),
        Operand::Id(_) | Operand::Lit(_) => None,
    }
}

/// The operands from the one with a number on. Operands are counted from 0, behind the result type and the result.
pub fn operands_from(inst: &Inst, n: usize) -> &[Operand]
    ensures { result.now ≡ drop n inst.now.operands }
{
    inst.operands.as_slice().get(n..).unwrap_or(&[])
}
