//! What an instruction is to the functions and blocks of a module (SPIR-V 1.6 section 2.4).
ghost use Rattle.std.specs.Prelude.{◌≡◌, IfOk, nat_eq, codes, unwrap_or};
ghost use Rattle.std.specs.List.{starts_with};
ghost use Rattle.spv_base.specs.Entries.{reads};
ghost use Rattle.spv_index.specs.Classes as spec;

use crate::operands::{id_operand, literal_operand};
use crate::table::Table;
use spv_base::{Inst, NoMemory, Operand};
use spv_ops::{op, storage_class};
use std::alloc::Global;

/// What an instruction is to its function.
#[derive(Clone, Copy)]
pub enum Class {
    Function,
    Parameter,
    End,
    Label,
    /// A line, or an instruction with no meaning at run time.
    Line,
    Phi,
    /// A variable of the function.
    Variable,
    Terminator,
    /// It stands in a block, and a run passes it.
    Passed,
    Executable,
}

/// Whether the name of an imported set begins with "NonSemantic.".
fn is_debug_set(inst: &Inst) -> bool
    ensures { result ≡ starts_with nat_eq (spec.name_of inst.now) (codes "NonSemantic.") }
{
    match inst.operands.get(0) {
        Some(Operand::Text(name)) => name.as_slice().starts_with(b"NonSemantic."),
        Some(Operand::Id(_)) => false,
        Some(Operand::Lit(_)) => false,
        None => false,
    }
}

/// The imported sets, each with whether it has no meaning at run time.
pub fn sets_of(alloc: Global, insts: &[Inst]) -> Result<Table<bool>, NoMemory>
    ensures { IfOk result (λ sets. sets ≡ spec.sets_of insts.now) }
{
    let mut sets = Vec::new(alloc);
    for inst in insts {
        if inst.op == op::EXT_INST_IMPORT {
            sets.push((inst.id, is_debug_set(inst)))?;
        }
    }
    Table::new(alloc, sets)
}

/// What an opcode is, where OpExtInst is of a set with no meaning or not, and OpVariable is of the function or not.
fn class_by(op: u16, debug: bool, local: bool) -> Class
    ensures { result ≡ unwrap_or (reads op (spec.classes debug local)) Class.Executable }
{
    match op {
        op::NOP => Class::Passed,
        op::LINE => Class::Line,
        op::EXT_INST => if debug {
            Class::Line
        } else {
            Class::Executable
        },
        op::FUNCTION => Class::Function,
        op::FUNCTION_PARAMETER => Class::Parameter,
        op::FUNCTION_END => Class::End,
        op::VARIABLE => if local {
            Class::Variable
        } else {
            Class::Passed
        },
        op::PHI => Class::Phi,
        op::LOOP_MERGE | op::SELECTION_MERGE => Class::Passed,
        op::LABEL => Class::Label,
        op::BRANCH
        | op::BRANCH_CONDITIONAL
        | op::SWITCH
        | op::RETURN
        | op::RETURN_VALUE
        | op::UNREACHABLE => Class::Terminator,
        op::NO_LINE => Class::Line,
        _ => Class::Executable,
    }
}

/// Whether an instruction is of the set that its first operand names, and this set has no meaning at run time.
pub fn is_debug(sets: &Table<bool>, inst: &Inst) -> bool
    ensures { result ≡ spec.is_debug sets.now inst.now }
{
    match id_operand(inst, 0) {
        Some(set) => sets.get(set).unwrap_or(false),
        None => false,
    }
}

/// What an instruction is.
pub fn class_of(sets: &Table<bool>, inst: &Inst) -> Class
    ensures { result ≡ spec.class_of sets.now inst.now }
{
    let local = literal_operand(inst, 0) == Some(storage_class::FUNCTION);
    class_by(inst.op, is_debug(sets, inst), local)
}

impl Class {
    /// Whether a run stops at it.
    pub fn is_executable(self) -> bool
        ensures { result ≡ spec.is_executable self }
    {
        matches!(self, Class::Terminator | Class::Executable)
    }

    /// Whether a block has ended, or should have, where it stands.
    pub fn ends_block(self) -> bool
        ensures { result ≡ spec.ends_block self }
    {
        matches!(self, Class::Function | Class::End | Class::Label)
    }

    /// Whether it begins a block.
    pub fn is_label(self) -> bool
        ensures { result ≡ spec.is_label self }
    {
        matches!(self, Class::Label)
    }

    /// Whether it ends a block.
    pub fn is_terminator(self) -> bool
        ensures { result ≡ spec.is_terminator self }
    {
        matches!(self, Class::Terminator)
    }

    /// Whether it is a phi.
    pub fn is_phi(self) -> bool
        ensures { result ≡ spec.is_phi self }
    {
        matches!(self, Class::Phi)
    }
}
