//! Instructions of the table, and their words.
ghost use Rattle.std.specs.Prelude.{◌≡◌, ◌++◌, map, IfOk, OnOk};
ghost use Rattle.std.specs.List.{AllByRecursion, flat_map};
ghost use Rattle.spv_ops.specs.Encoding.{IsInst, encoding};
ghost use Rattle.spv_make.specs.Rows.{operand_of, inst_of};

use crate::rows::{Part, Row};
use spv_base::{Inst, Items, NoMemory, Operand, Words};
use spv_ops::encode;
use std::alloc::Global;

/// The operand that a part stands for.
fn operand_of(alloc: Global, part: Part, turns: u32) -> Result<Operand, NoMemory>
    ensures { IfOk result (λ operand. operand ≡ operand_of turns part) }
{
    Ok(match part {
        Part::Id(id) => Operand::Id(id),
        Part::Literal(literal) => Operand::Lit(literal),
        Part::Text(text) => Operand::Text(Items::from_slice(alloc, text.as_bytes())?),
        Part::Turns => Operand::Lit(turns),
    })
}

/// The instruction of a row. Its words don't depend on where it stands.
fn inst_of(alloc: Global, row: Row, turns: u32) -> Result<Inst, NoMemory>
    ensures { IfOk result (λ inst. inst ≡ inst_of turns row.entry.0 row.entry.1 row.entry.2 row.entry.3.now) }
{
    let (op, ty, id, parts) = row;
    let mut operands = Items::new(alloc);
    for part in parts {
        operands.push(operand_of(alloc, *part, turns)?)?;
    }
    Ok(Inst {
        word: 0,
        op,
        ty,
        id,
        operands,
    })
}

/// Appends the words of an instruction. The first one has how many they are and the opcode.
fn push_inst(alloc: Global, words: &mut Words, inst: &Inst) -> Result<(), NoMemory>
    requires { IsInst inst.now }
    ensures { OnOk result (words.new ≡ words.old ++ encoding inst.now) }
{
    let raw = encode(alloc, inst)?;
    words.push((raw.rest.len() as u32 + 1) * 65536 + u32::from(raw.op))?;
    for word in raw.rest.as_slice() {
        words.push(*word)?;
    }
    Ok(())
}

/// Appends the words of the instructions of rows.
pub fn push_rows(alloc: Global, words: &mut Words, rows: &[Row], turns: u32) -> Result<(), NoMemory>
    requires { AllByRecursion IsInst (map (λ row. inst_of turns row.0 row.1 row.2 row.3.now) rows.now) }
    ensures { OnOk result (words.new ≡ words.old ++ flat_map encoding (map (λ row. inst_of turns row.0 row.1 row.2 row.3.now) rows.now)) }
{
    for row in rows {
        let inst = inst_of(alloc, *row, turns)?;
        push_inst(alloc, words, &inst)?;
    }
    Ok(())
}
