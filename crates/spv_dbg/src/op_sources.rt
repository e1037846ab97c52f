//! The texts of source files in OpSource and OpSourceContinued.
ghost use Rattle.std.specs.Prelude.{◌≡◌, ◌++◌, ℕ, List, OnOk, map};
ghost use Rattle.spv_dbg.specs.Seen.{seen};
ghost use Rattle.spv_dbg.specs.Sources as spec;

use crate::pieces::{Piece, Pieces};
use crate::sources::Source;
use crate::texts::Text;
use spv_base::{Bytes, Inst, NoMemory};
use spv_index::{id_operand, text_operand};
use spv_ops::op;
use std::alloc::Global;

/// Adds the texts of each OpSourceContinued before the next OpSource.
fn push_op_continuation(insts: &[Inst], text: &mut Vec<u8>) -> Result<(), NoMemory>
    ensures { OnOk result (text.new.items ≡ text.old.items ++ spec.op_continuation insts.now) }
{
    for inst in insts {
        if inst.op == op::SOURCE {
            return Ok(());
        }
        if inst.op == op::SOURCE_CONTINUED {
            text.extend_from_slice(text_operand(inst, 0).unwrap_or(&[]))?;
        }
    }
    Ok(())
}

/// Adds an OpSource that has a text, where these instructions stand behind it.
fn add_op_source(
    alloc: Global,
    inst: &Inst,
    behind: &[Inst],
    sources: &mut Vec<Source>,
) -> Result<(), NoMemory>
    ensures { OnOk result ((strings : List (ℕ × List ℕ)) → map (seen strings) sources.new.items ≡ map (seen strings) sources.old.items ++ spec.op_source_at inst.now behind.now) }
{
    if inst.op != op::SOURCE {
        return Ok(());
    }
    let Some(file) = id_operand(inst, 2) else {
        return Ok(());
    };
    let Some(first) = text_operand(inst, 3) else {
        return Ok(());
    };
    let mut text = Vec::from_slice(alloc, first)?;
    push_op_continuation(behind, &mut text)?;
    let mut pieces = Pieces::new(alloc);
    pieces.push(Piece::Own(Text::of(Bytes::from_vec(text))))?;
    sources.push((file, pieces))?;
    Ok(())
}

/// Adds each OpSource among these instructions that has a text.
pub(crate) fn add_op_sources(
    alloc: Global,
    mut insts: &[Inst],
    sources: &mut Vec<Source>,
) -> Result<(), NoMemory>
    ensures { OnOk result ((strings : List (ℕ × List ℕ)) → map (seen strings) sources.new.items ≡ map (seen strings) sources.old.items ++ spec.op_sources_in insts.entry.now) }
{
    while let [inst, behind @ ..] = insts {
        add_op_source(alloc, inst, behind, sources)?;
        insts = behind;
    }
    Ok(())
}
