//! The debug instructions that a run passes: DebugDeclare and DebugValue of NonSemantic.Shader.DebugInfo.100, by the executables
//! before which they stand.
ghost use Rattle.std.specs.Prelude.{◌≡◌, ◌++◌, ℕ, [], IfOk, OnOk, map};
ghost use Rattle.spv_index.specs.Positions.{stands_of};
ghost use Rattle.spv_state.specs.Events as spec;

use spv_base::{Inst, NoMemory};
use spv_index::stands::Stand;
use spv_index::{Index, Keyed, id_operand, set_number};
use spv_ops::debug_info::{DECLARE, VALUE};
use spv_valid::Module;
use std::alloc::Global;
use std::mem;

/// A debug instruction that captures a value: its word number, and the id whose value it captures.
#[derive(Clone, Copy)]
pub struct Capture {
    pub word: u32,
    pub id: Option<u32>,
}

/// Whether an instruction captures a value: DebugDeclare or DebugValue, with a variable and an id.
fn captures(index: &Index, inst: &Inst) -> bool
    ensures { result ≡ spec.captures index.now.insts inst.now }
{
    match set_number(index, inst) {
        Some(number) => (number == DECLARE || number == VALUE) && 3 < inst.operands.len(),
        None => false,
    }
}

/// Goes past an instruction, where some were passed since the last executable or label. An executable gets those, if there are some.
fn go_past(
    alloc: Global,
    index: &Index,
    stand: &Stand<'_>,
    passed: &mut Vec<Capture>,
    entries: &mut Vec<(u32, Vec<Capture>)>,
) -> Result<(), NoMemory>
    ensures passed { OnOk result (passed.new.items ≡ spec.behind index.now.insts (record { position = stand.now.position; class = stand.now.class; inst = stand.now.inst.now }) passed.old.items) }
    ensures entries { OnOk result (map spec.listed entries.new.items ≡ map spec.listed entries.old.items
        ++ spec.entry (record { position = stand.now.position; class = stand.now.class; inst = stand.now.inst.now }) passed.old.items) }
{
    if stand.is_stop() {
        let before = mem::replace(passed, Vec::new(alloc));
        if !before.is_empty() {
            entries.push((stand.inst.word, before))?;
        }
    } else if stand.class.is_label() {
        passed.clear();
    } else if captures(index, stand.inst) {
        passed.push(Capture {
            word: stand.inst.word,
            id: id_operand(stand.inst, 3),
        })?;
    }
    Ok(())
}

/// Each executable before which some are passed, with these. Each instruction of the module is looked at once.
fn entries_of(alloc: Global, index: &Index) -> Result<Vec<(u32, Vec<Capture>)>, NoMemory>
    ensures { IfOk result (λ entries. map spec.listed entries.items ≡ spec.entries index.now.insts [] (stands_of index.now.insts)) }
{
    let stands = index.stands();
    let mut passed = Vec::new(alloc);
    let mut entries = Vec::new(alloc);
    for n in 0..stands.len() {
        go_past(alloc, index, &stands.at(n), &mut passed, &mut entries)?;
    }
    Ok(entries)
}

/// The debug instructions of a module that a run passes, by the executables before which they stand.
#[tactic(auto, unfolding(crate::specs::Events::captures_before))]
pub(crate) fn captures_of(alloc: Global, accepted: &Module) -> Result<Keyed<Vec<Capture>>, NoMemory>
    ensures { IfOk result (λ keyed. (pc : ℕ) → spec.under keyed pc ≡ spec.captures_before accepted.now pc) }
{
    Keyed::of(alloc, entries_of(alloc, accepted.index())?)
}
