//! Where each instruction stands (SPIR-V 1.6 section 2.4).
ghost use Rattle.std.specs.Prelude.{◌≡◌, IfOk, map};
ghost use Rattle.spv_index.specs.Positions as spec;

use crate::classes::{Class, class_of};
use crate::table::Table;
use spv_base::{Inst, NoMemory};
use std::alloc::Global;

/// How far a function and its block have come.
#[derive(Clone, Copy)]
pub enum Stage {
    /// In no function.
    Outside,
    /// In a function, before its first block.
    Head,
    /// In a block, after phis and lines alone.
    Phis,
    /// In a block, after phis, lines and variables alone.
    Variables,
    /// Further on in a block.
    Body,
    /// In a function, after a block has ended.
    Between,
}

/// The stage of an instruction, the id of its function and the word of the OpFunction, the label of its block and the
/// word of the OpLabel, and whether this block is the first one.
#[derive(Clone, Copy)]
pub struct Position {
    pub stage: Stage,
    pub function: u32,
    pub function_word: u32,
    pub label: u32,
    pub block_word: u32,
    pub first: bool,
}

/// Where an instruction stands, and what it is there.
#[derive(Clone, Copy)]
pub struct Standing {
    pub position: Position,
    pub class: Class,
}

impl Stage {
    /// Whether it is in a block.
    pub fn in_block(self) -> bool
        ensures { result ≡ spec.in_block self }
    {
        matches!(self, Stage::Phis | Stage::Variables | Stage::Body)
    }

    /// Whether it is in a function.
    pub fn in_function(self) -> bool
        ensures { result ≡ spec.in_function self }
    {
        !matches!(self, Stage::Outside)
    }

    /// Whether it is before the first block of a function.
    pub fn is_head(self) -> bool
        ensures { result ≡ spec.is_head self }
    {
        matches!(self, Stage::Head)
    }

    /// Whether phis and lines alone came before it in the block.
    pub fn among_phis(self) -> bool
        ensures { result ≡ spec.among_phis self }
    {
        matches!(self, Stage::Phis)
    }

    /// Whether phis, lines and variables alone came before it in the block.
    pub fn among_variables(self) -> bool
        ensures { result ≡ spec.among_variables self }
    {
        matches!(self, Stage::Phis | Stage::Variables)
    }

    /// The stage behind an instruction.
    fn after(self, class: Class) -> Stage
        ensures { result ≡ spec.stage_after class self }
    {
        match class {
            Class::Function => Stage::Head,
            Class::Parameter | Class::Line | Class::Phi => self,
            Class::End => Stage::Outside,
            Class::Label => if self.in_function() {
                Stage::Phis
            } else {
                self
            },
            Class::Variable => if self.among_variables() {
                Stage::Variables
            } else {
                self
            },
            Class::Terminator => if self.in_block() {
                Stage::Between
            } else {
                self
            },
            Class::Passed | Class::Executable => if self.in_block() { Stage::Body } else { self },
        }
    }
}

impl Position {
    /// Before the first instruction.
    pub fn outside() -> Position
        ensures { result ≡ spec.outside }
    {
        Position {
            stage: Stage::Outside,
            function: 0,
            function_word: 0,
            label: 0,
            block_word: 0,
            first: false,
        }
    }

    /// The function that an OpFunction begins.
    fn begins(inst: &Inst) -> Position
        ensures { result ≡ spec.begins inst.now }
    {
        Position {
            stage: Stage::Head,
            function: inst.id,
            function_word: inst.word,
            label: 0,
            block_word: 0,
            first: false,
        }
    }

    /// The block that an OpLabel begins.
    fn begins_block(self, inst: &Inst) -> Position
        ensures { result ≡ spec.begins_block self inst.now }
    {
        Position {
            stage: Stage::Phis,
            label: inst.id,
            block_word: inst.word,
            first: self.stage.is_head(),
            ..self
        }
    }

    /// The position behind an instruction.
    pub fn after(self, class: Class, inst: &Inst) -> Position
        ensures { result ≡ spec.position_after self class inst.now }
    {
        match class {
            Class::Function => Position::begins(inst),
            Class::Label => if self.stage.in_function() {
                self.begins_block(inst)
            } else {
                self
            },
            Class::Parameter
            | Class::End
            | Class::Line
            | Class::Phi
            | Class::Variable
            | Class::Terminator
            | Class::Passed
            | Class::Executable => Position {
                stage: self.stage.after(class),
                ..self
            },
        }
    }
}

/// The standings of a module's instructions, in their order, where `sets` has its imported sets.
pub fn standings_of(
    alloc: Global,
    sets: &Table<bool>,
    insts: &[Inst],
) -> Result<Vec<Standing>, NoMemory>
    ensures { IfOk result (λ standings. standings.items ≡ map spec.standing (spec.stands sets.now spec.outside insts.now)) }
{
    let mut standings = Vec::new(alloc);
    let mut position = Position::outside();
    for inst in insts {
        let class = class_of(sets, inst);
        standings.push(Standing { position, class })?;
        position = position.after(class, inst);
    }
    Ok(standings)
}
