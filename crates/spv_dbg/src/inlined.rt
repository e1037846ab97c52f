//! The InlinedAt that holds at each instruction of a module.
ghost use Rattle.std.specs.Prelude.{◌≡◌, [], IfOk};
ghost use Rattle.spv_dbg.specs.Tables as spec;

use crate::insts::operand_of;
use crate::marks::Mark;
use spv_base::{Inst, NoMemory};
use spv_index::Table;
use spv_index::stands::{Stand, Stands};
use spv_ops::debug_info::{NO_SCOPE, SCOPE};
use spv_valid::Module;
use std::alloc::Global;

/// What a well-formed Scope or NoScope sets.
fn set_by(mark: Option<Mark>, inst: &Inst) -> Option<u32>
    ensures { result ≡ spec.set_by mark inst.now }
{
    match mark?.number {
        SCOPE => Some(operand_of(inst, 1)),
        NO_SCOPE => Some(0),
        _ => None,
    }
}

/// What holds behind an instruction, where some InlinedAt or none holds before it.
fn behind(stand: &Stand<'_>, mark: Option<Mark>, before: u32) -> u32
    ensures { result ≡ spec.behind (record { position = stand.now.position; class = stand.now.class; inst = stand.now.inst.now }, mark) before }
{
    if stand.class.is_label() {
        return 0;
    }
    set_by(mark, stand.inst).unwrap_or(before)
}

/// What holds at the word of each instruction.
fn inlined_entries(
    alloc: Global,
    stands: &Stands<'_>,
    marks: &[Option<Mark>],
) -> Result<Vec<(u32, u32)>, NoMemory>
    ensures { IfOk result (λ entries. entries.items ≡ spec.inlined_from [] (spec.paired stands.now marks.now)) }
{
    let mut entries = Vec::new(alloc);
    let mut before = 0;
    let len = stands.len().min(marks.len());
    for n in 0..len {
        let stand = stands.at(n);
        let inside = stand.position.stage.in_block();
        entries.push((stand.inst.word, if inside { before } else { 0 }))?;
        before = behind(&stand, marks[n], before);
    }
    Ok(entries)
}

/// By word, the InlinedAt that holds at the instruction there.
#[tactic(auto, unfolding(crate::specs::Tables::inlined_of))]
pub(crate) fn inlined_of(
    alloc: Global,
    module: &Module,
    marks: &[Option<Mark>],
) -> Result<Table<u32>, NoMemory>
    requires { marks.now ≡ spec.marks_of module.now }
    ensures { IfOk result (λ table. table ≡ spec.inlined_of module.now) }
{
    let stands = module.index().stands();
    Table::new(alloc, inlined_entries(alloc, &stands, marks)?)
}
