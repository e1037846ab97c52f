//! What the debug records of a module hold, what the look-ups of their tables give, and where the instructions stand in the source,
//! summed up.

use crate::lines::{Asked, Shown};
use crate::values::Values;
use spv_app::acceptance::accepted;
use spv_base::{Fail, Inst, NoMemory, Refusal};
use spv_dbg::{DebugInst, DebugTables, SourceText};
use spv_ops::op;
use spv_scopes::Lines;
use spv_valid::Module;
use spv_words::words;
use std::alloc::Global;

/// The sums over the debug records of a module and its instructions.
#[derive(Drop)]
pub struct Counts {
    /// The well-formed records.
    pub records: u64,
    /// Those of them that are found by their id and by their word.
    pub found: u64,
    /// The malformed ones.
    pub ignored: u64,
    /// The bytes of the strings that operands of records name.
    pub strings: u64,
    /// The 32-bit integers that they name, summed up.
    pub numbers: u64,
    /// The instructions that an InlinedAt holds at.
    pub inlined: u64,
    /// The bytes of the texts of files.
    pub text: u64,
}

/// Whether a record is found by its id and by its word.
fn is_found(tables: &DebugTables, record: &DebugInst) -> bool {
    let (Some(by_id), Some(by_word)) = (tables.get(record.id), tables.at(record.word)) else {
        return false;
    };
    by_id.word == record.word && by_word.id == record.id
}

/// The number of a constant that is one 32-bit integer, and 0 for another id.
fn number_of(tables: &DebugTables, id: u32) -> u64 {
    match tables.constant(id) {
        Some(row) if row.cells.len() == 1 => u64::from(tables.number_of(id).unwrap_or(0)),
        Some(_) | None => 0,
    }
}

/// How many bytes a text has.
fn len_of(text: &SourceText<'_>) -> u64 {
    let mut len = 0u64;
    for n in 0..text.len() {
        len = len.saturating_add(text.piece(n).len() as u64);
    }
    len
}

impl Counts {
    /// Adds a record: whether it is found, and what its operands name.
    fn add_record(&mut self, tables: &DebugTables, record: &DebugInst) {
        let found = u64::from(is_found(tables, record));
        self.found = self.found.saturating_add(found);
        for id in record.operands.as_slice() {
            let string = tables.string(*id).unwrap_or(&[]);
            self.strings = self.strings.saturating_add(string.len() as u64);
            self.numbers = self.numbers.saturating_add(number_of(tables, *id));
        }
    }

    /// Adds an instruction: whether an InlinedAt holds there, and the text of the file that it is the name of.
    fn add_inst(&mut self, tables: &DebugTables, inst: &Inst) {
        let is_inlined = tables.inlined_at(inst.word) != 0;
        self.inlined = self.inlined.saturating_add(u64::from(is_inlined));
        if inst.op == op::STRING {
            let name = tables.string(inst.id).unwrap_or(&[]);
            if let Some(text) = tables.source(name) {
                self.text = self.text.saturating_add(len_of(&text));
            }
        }
    }

    /// The sums of these tables, which are those of a module with these instructions.
    fn of(tables: &DebugTables, insts: &[Inst]) -> Counts {
        let mut counts = Counts {
            records: tables.insts().len() as u64,
            found: 0,
            ignored: tables.ignored(),
            strings: 0,
            numbers: 0,
            inlined: 0,
            text: 0,
        };
        for record in tables.insts() {
            counts.add_record(tables, record);
        }
        for inst in insts {
            counts.add_inst(tables, inst);
        }
        counts
    }
}

/// What is read in a module.
#[derive(Drop)]
pub struct Read {
    pub counts: Counts,
    pub shown: Shown,
    pub values: Values,
}

/// What the debug records of a module hold and give, where its instructions stand in the source, and how values of its types are written.
fn read_in(alloc: Global, module: &Module) -> Result<Read, NoMemory> {
    let tables = DebugTables::build(alloc, module)?;
    let lines = Lines::build(alloc, module, &tables)?;
    let asked = Asked {
        alloc,
        module,
        tables: &tables,
        lines: &lines,
    };
    Ok(Read {
        counts: Counts::of(&tables, module.insts()),
        shown: Shown::of(&asked)?,
        values: Values::of(alloc, &tables)?,
    })
}

/// What is read in the module with these bytes. Refuses one that isn't accepted.
pub fn read_of(alloc: Global, bytes: &[u8]) -> Result<Read, Fail<Refusal>> {
    let module = accepted(alloc, &words(alloc, bytes)?)?;
    Ok(read_in(alloc, &module)?)
}
