//! The debug instructions of a module, read in its order.
ghost use Rattle.std.specs.Prelude.{◌≡◌, ◌++◌, ◌+◌, ◌≤◌, [], ◌∷◌, IfOk, OnOk, vec_len};
ghost use Rattle.spv_dbg.specs.Forming as spec;
ghost use Rattle.spv_dbg.specs.Tables.{ignored_of, insts_of, marks_of};

use crate::forming::mark_of;
use crate::insts::{DebugInst, debug_inst};
use crate::marks::Mark;
use spv_base::NoMemory;
use spv_index::set_number;
use spv_index::stands::Stand;
use spv_valid::Module;
use std::alloc::Global;

/// The marks of the instructions that were read, the well-formed debug instructions among them, and how many are malformed.
#[derive(Drop)]
pub(crate) struct Records {
    pub(crate) marks: Vec<Option<Mark>>,
    pub(crate) insts: Vec<DebugInst>,
    pub(crate) ignored: u64,
}

impl Records {
    /// Nothing was read.
    fn new(alloc: Global) -> Records
        ensures marks { result.marks.items ≡ [] }
        ensures insts { result.insts.items ≡ [] }
        ensures ignored { result.ignored ≡ 0 }
    {
        Records {
            marks: Vec::new(alloc),
            insts: Vec::new(alloc),
            ignored: 0,
        }
    }

    /// Reads a debug instruction, which stands in a block or not.
    fn add_debug(&mut self, module: &Module, inside: bool, debug: DebugInst) -> Result<(), NoMemory>
        requires { self.old.ignored ≤ vec_len self.old.marks }
        ensures marks { OnOk result (self.new.marks.items ≡ self.old.marks.items ++ spec.mark_of module.now self.old.marks.items inside debug ∷ []) }
        ensures insts { OnOk result (self.new.insts.items ≡ self.old.insts.items ++ spec.kept_of (spec.mark_of module.now self.old.marks.items inside debug) debug) }
        ensures ignored { OnOk result (self.new.ignored ≡ self.old.ignored + spec.lost (spec.mark_of module.now self.old.marks.items inside debug)) }
        ensures few { OnOk result (self.new.ignored ≤ vec_len self.new.marks) }
    {
        let mark = mark_of(module, self.marks.as_slice(), inside, &debug);
        self.marks.push(mark)?;
        match mark {
            Some(_) => self.insts.push(debug)?,
            None => self.ignored += 1,
        }
        Ok(())
    }

    /// Reads an instruction.
    fn add(&mut self, alloc: Global, module: &Module, stand: &Stand<'_>) -> Result<(), NoMemory>
        requires { self.old.ignored ≤ vec_len self.old.marks }
        ensures marks { OnOk result (self.new.marks.items ≡ self.old.marks.items ++ spec.mark_at module.now self.old.marks.items (spec.stood stand.now.position stand.now.class stand.now.inst.now) ∷ []) }
        ensures insts { OnOk result (self.new.insts.items ≡ self.old.insts.items ++ spec.kept module.now self.old.marks.items (spec.stood stand.now.position stand.now.class stand.now.inst.now)) }
        ensures ignored { OnOk result (self.new.ignored ≡ self.old.ignored + spec.malformed module.now self.old.marks.items (spec.stood stand.now.position stand.now.class stand.now.inst.now)) }
        ensures few { OnOk result (self.new.ignored ≤ vec_len self.new.marks) }
    {
        let Some(number) = set_number(module.index(), stand.inst) else {
            self.marks.push(None)?;
            return Ok(());
        };
        let debug = debug_inst(alloc, number, stand.inst)?;
        self.add_debug(module, stand.position.stage.in_block(), debug)
    }
}

/// The debug instructions of a module.
#[tactic(auto, unfolding(crate::specs::Tables::marks_of, crate::specs::Tables::insts_of, crate::specs::Tables::ignored_of))]
pub(crate) fn records_of(alloc: Global, module: &Module) -> Result<Records, NoMemory>
    ensures marks { IfOk result (λ r. r.marks.items ≡ marks_of module.now) }
    ensures insts { IfOk result (λ r. r.insts.items ≡ insts_of module.now) }
    ensures ignored { IfOk result (λ r. r.ignored ≡ ignored_of module.now) }
{
    let stands = module.index().stands();
    let mut records = Records::new(alloc);
    for n in 0..stands.len() {
        let stand = stands.at(n);
        records.add(alloc, module, &stand)?;
    }
    Ok(records)
}
