//! Which debug instructions name a scalar.
ghost use Rattle.std.specs.Prelude.{◌≡◌, IfOk, map};
ghost use Rattle.spv_dbg.specs.Tables as spec;

use crate::insts::{DebugInst, operand};
use spv_base::NoMemory;
use spv_index::Table;
use spv_valid::Module;
use std::alloc::Global;

/// Whether an id is that of a Boolean or an integer.
fn is_scalar_id(module: &Module, id: u32) -> bool
    ensures { result ≡ spec.is_scalar_id module.now id }
{
    match module.index().result_type(id) {
        Some(ty) => module.types().is_scalar(ty),
        None => false,
    }
}

/// A debug instruction's word, and whether its second operand is the id of a scalar.
fn scalar_entry(module: &Module, debug: &DebugInst) -> (u32, bool)
    ensures { result ≡ spec.scalar_entry module.now debug.now }
{
    let id = operand(debug.operands.as_slice(), 1);
    (debug.word, is_scalar_id(module, id))
}

/// That of each of these debug instructions.
fn scalar_entries(
    alloc: Global,
    module: &Module,
    insts: &[DebugInst],
) -> Result<Vec<(u32, bool)>, NoMemory>
    ensures { IfOk result (λ entries. entries.items ≡ map (spec.scalar_entry module.now) insts.now) }
{
    let mut entries = Vec::new(alloc);
    for debug in insts {
        entries.push(scalar_entry(module, debug))?;
    }
    Ok(entries)
}

/// By word, whether the second operand of a debug instruction is the id of a scalar.
pub(crate) fn scalars_of(
    alloc: Global,
    module: &Module,
    insts: &[DebugInst],
) -> Result<Table<bool>, NoMemory>
    ensures { IfOk result (λ table. table ≡ map (spec.scalar_entry module.now) insts.now) }
{
    Table::new(alloc, scalar_entries(alloc, module, insts)?)
}
