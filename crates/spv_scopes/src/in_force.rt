//! What is in force at an instruction of a block.
ghost use Rattle.std.specs.Prelude.{◌≡◌, [], ◌∷◌, List, if◌then◌else◌};
ghost use Rattle.spv_index.specs.Positions.{Stand};
ghost use Rattle.spv_dbg.specs.Tables.{Tables};
ghost use Rattle.spv_scopes.specs.InForce as spec;

use crate::places::operand;
use spv_base::Inst;
use spv_dbg::{DebugInst, DebugTables};
use spv_index::{id_operand, literal_operand, stands};
use spv_ops::debug_info::{LINE, NO_LINE, NO_SCOPE, SCOPE};
use spv_ops::op;

/// The scope, the debug Line and the OpLine that are in force. A line is the OpString with the name of its file, and its number.
#[derive(Clone, Copy)]
pub struct InForce {
    pub scope: u32,
    pub debug_line: Option<(u32, u32)>,
    pub op_line: Option<(u32, u32)>,
}

/// The OpString with the name of the file of a Source.
pub(crate) fn file_of(tables: &DebugTables, source: u32) -> u32
    ensures { result ≡ spec.file_of tables.now source }
{
    match tables.get(source) {
        Some(debug) => operand(debug, 0),
        None => 0,
    }
}

/// The number that a literal operand stands for.
pub(crate) fn literal(tables: &DebugTables, id: u32) -> u32
    ensures { result ≡ spec.literal tables.now id }
{
    tables.number_of(id).unwrap_or(0)
}

/// The line that a debug Line names, and nothing for a NoLine.
fn line_named(tables: &DebugTables, debug: &DebugInst) -> Option<(u32, u32)>
    ensures { result ≡ spec.line_named tables.now debug.now }
{
    if debug.number != LINE {
        return None;
    }
    let file = file_of(tables, operand(debug, 0));
    Some((file, literal(tables, operand(debug, 1))))
}

/// The line that an OpLine names, and nothing for an OpNoLine.
fn op_line_named(inst: &Inst) -> Option<(u32, u32)>
    ensures { result ≡ spec.op_line_named inst.now }
{
    if inst.op != op::LINE {
        return None;
    }
    let file = id_operand(inst, 0).unwrap_or(0);
    Some((file, literal_operand(inst, 1).unwrap_or(0)))
}

/// A line 0 is no line, and has no file.
fn told(line: Option<(u32, u32)>) -> (u32, u32)
    ensures { result ≡ spec.told line }
{
    match line {
        Some((file, number)) if number != 0 => (file, number),
        _ => (0, 0),
    }
}

impl InForce {
    /// At the head of a block.
    pub(crate) fn none() -> InForce
        ensures { (t : Tables) → result ≡ spec.in_force t [] }
    {
        InForce {
            scope: 0,
            debug_line: None,
            op_line: None,
        }
    }

    /// Behind an OpLine or OpNoLine; another instruction changes nothing.
    fn after_op_line(self, inst: &Inst) -> InForce
        ensures { result ≡ record self { op_line = (if spec.sets_op_line inst.now then spec.op_line_named inst.now else self.op_line) } }
    {
        match inst.op {
            op::LINE | op::NO_LINE => InForce {
                op_line: op_line_named(inst),
                ..self
            },
            _ => self,
        }
    }

    /// Behind a well-formed debug instruction.
    fn after_debug(self, tables: &DebugTables, debug: &DebugInst) -> InForce
        ensures { result ≡ record self { scope = (if spec.sets_scope debug.now then spec.scope_named debug.now else self.scope); debug_line = (if spec.sets_line debug.now then spec.line_named tables.now debug.now else self.debug_line) } }
    {
        match debug.number {
            SCOPE => InForce {
                scope: operand(debug, 0),
                ..self
            },
            NO_SCOPE => InForce { scope: 0, ..self },
            LINE | NO_LINE => InForce {
                debug_line: line_named(tables, debug),
                ..self
            },
            _ => self,
        }
    }

    /// Behind an instruction.
    pub(crate) fn after(self, tables: &DebugTables, stand: &stands::Stand<'_>) -> InForce
        ensures { (before : List Stand) → self ≡ spec.in_force tables.now before → result ≡ spec.in_force tables.now (record { position = stand.now.position; class = stand.now.class; inst = stand.now.inst.now } ∷ before) }
    {
        if stand.class.is_label() {
            return InForce::none();
        }
        let lined = self.after_op_line(stand.inst);
        match tables.at(stand.inst.word) {
            Some(debug) => lined.after_debug(tables, debug),
            None => lined,
        }
    }

    /// The file and the line: a debug Line wins over an OpLine.
    pub(crate) fn line(self) -> (u32, u32)
        ensures { result ≡ spec.line_in self }
    {
        told(self.debug_line.or(self.op_line))
    }
}
