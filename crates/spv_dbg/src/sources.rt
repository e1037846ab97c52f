//! The texts of source files.
ghost use Rattle.std.specs.Prelude.{◌≡◌, ◌++◌, ℕ, List, IfOk, OnOk, map};
ghost use Rattle.spv_dbg.specs.Seen.{seen, text_in};
ghost use Rattle.spv_dbg.specs.Sources as spec;

use crate::insts::{DebugInst, operand};
use crate::op_sources::add_op_sources;
use crate::pieces::{Piece, Pieces};
use spv_base::{Inst, NoMemory};
use spv_ops::debug_info::{SOURCE, SOURCE_CONTINUED};
use std::alloc::Global;

/// The id of the OpString with the name of a file, and the pieces of its text.
pub(crate) type Source = (u32, Pieces);

/// Adds the Texts of each SourceContinued before the next Source.
fn push_continuation(insts: &[DebugInst], pieces: &mut Pieces) -> Result<(), NoMemory>
    ensures { OnOk result ((strings : List (ℕ × List ℕ)) → text_in strings pieces.new ≡ text_in strings pieces.old ++ spec.continuation strings insts.now) }
{
    for debug in insts {
        if debug.number == SOURCE {
            return Ok(());
        }
        if debug.number == SOURCE_CONTINUED {
            pieces.push(Piece::Named(operand(debug.operands.as_slice(), 0)))?;
        }
    }
    Ok(())
}

/// The Text with an id of a Source, with what continues it where these debug instructions stand behind the Source.
fn pieces_of(alloc: Global, id: u32, behind: &[DebugInst]) -> Result<Pieces, NoMemory>
    ensures { IfOk result (λ pieces. (strings : List (ℕ × List ℕ)) → text_in strings pieces ≡ spec.text_of strings id ++ spec.continuation strings behind.now) }
{
    let mut pieces = Pieces::from_vec(vec![in alloc; Piece::Named(id)]?);
    push_continuation(behind, &mut pieces)?;
    Ok(pieces)
}

/// Adds a Source that has a Text, where these debug instructions stand behind it.
fn add_source(
    alloc: Global,
    debug: &DebugInst,
    behind: &[DebugInst],
    sources: &mut Vec<Source>,
) -> Result<(), NoMemory>
    ensures { OnOk result ((strings : List (ℕ × List ℕ)) → map (seen strings) sources.new.items ≡ map (seen strings) sources.old.items ++ spec.source_at strings debug.now behind.now) }
{
    let ids = debug.operands.as_slice();
    if debug.number != SOURCE || ids.len() < 2 {
        return Ok(());
    }
    let pieces = pieces_of(alloc, operand(ids, 1), behind)?;
    sources.push((operand(ids, 0), pieces))?;
    Ok(())
}

/// Adds the Sources among these debug instructions that have a Text. In linear time: what continues a Source ends at the next one.
fn add_sources(
    alloc: Global,
    mut insts: &[DebugInst],
    sources: &mut Vec<Source>,
) -> Result<(), NoMemory>
    ensures { OnOk result ((strings : List (ℕ × List ℕ)) → map (seen strings) sources.new.items ≡ map (seen strings) sources.old.items ++ spec.debug_sources strings insts.entry.now) }
{
    while let [debug, behind @ ..] = insts {
        add_source(alloc, debug, behind, sources)?;
        insts = behind;
    }
    Ok(())
}

/// The texts of a module: those of its debug instructions, and then those of each OpSource.
pub(crate) fn sources_of(
    alloc: Global,
    debug: &[DebugInst],
    insts: &[Inst],
) -> Result<Vec<Source>, NoMemory>
    ensures { IfOk result (λ sources. (strings : List (ℕ × List ℕ)) → map (seen strings) sources.items ≡ spec.debug_sources strings debug.now ++ spec.op_sources_in insts.now) }
{
    let mut sources = Vec::new(alloc);
    add_sources(alloc, debug, &mut sources)?;
    add_op_sources(alloc, insts, &mut sources)?;
    Ok(sources)
}
