//! Modules that broke no rule.
ghost use Rattle.std.specs.Prelude.{◌≡◌, ◌<◌, ◌≤◌, IsSome, Some, option_copied, option_map};
ghost use Rattle.spv_base.specs.Entries.{reads};
ghost use Rattle.spv_index.specs.Definitions as definitions;
ghost use Rattle.spv_valid.specs.Acceptance.{IsAccepted, invocations};
ghost use Rattle.spv_valid.specs.Meanings.{meaning_of};
ghost use Rattle.spv_valid.specs.Validity.{IsValid};

use crate::entry::Entry;
use crate::meanings::{Meaning, meaning_of};
use crate::validity::accepted_modules_are_valid;
use spv_base::Inst;
use spv_cfg::Flow;
use spv_consts::ConstTable;
use spv_consts::table::Row;
use spv_index::Index;
use spv_types::TypeTable;
use std::marker::Model;

/// A module that broke no rule, and what was read off it.
pub struct Module {
    pub(crate) index: Index,
    pub(crate) types: TypeTable,
    pub(crate) consts: ConstTable,
    pub(crate) flow: Flow,
    pub(crate) entry: Entry,
    pub(crate) stack_cells: u64,
}

// Written out, so that it is proved once: a derived drop is proved again in each function that lets go of such a value.
impl Drop for Module {
    fn drop(self) {
        let Module {
            index,
            types,
            consts,
            flow,
            entry,
            stack_cells: _,
        } = self;
        drop(index);
        drop(types);
        drop(consts);
        drop(flow);
        drop(entry);
    }
}

impl Model for Module {
    ghost use Rattle.std.specs.Prelude.{◌≡◌};
    ghost use Rattle.spv_valid.specs.Acceptance.{Accepted, IsAccepted};
    ghost use Rattle.std.specs.Coded.{codes};
    ghost use Rattle.spv_base.specs.contracts.values.Value as value;

    ghost Value = { Accepted };

    ghost coded = { Prim.hlevel (codes, value.the_row.coded) };

    ghost use Rattle.spv_valid.specs.Modules.{view_of};

    ghost view = { view_of };

    ghost invariant = { λ m. ∥ IsAccepted (view_of m) ∥₁ };
}

impl Module {
    /// The instructions.
    pub fn insts(&self) -> &[Inst]
        ensures insts { result.now ≡ self.now.insts }
        ensures accepted { ∥ IsAccepted self.now ∥₁ }
        // What they, with the types, constants and blocks, give to a run over them.
        ensures valid { ∥ IsValid self.now ∥₁ }
    {
        accepted_modules_are_valid();
        self.index.insts()
    }

    /// The index: who defines an id, what stands at a word, and what the module says of ids.
    pub fn index(&self) -> &Index
        ensures insts { result.now.insts ≡ self.now.insts }
        ensures bound { result.now.bound ≡ self.now.bound }
    {
        &self.index
    }

    /// The Bound: every id is below it. It is at most 1,048,576.
    pub fn bound(&self) -> u32
        ensures { result ≡ self.now.bound }
    {
        self.index.bound()
    }

    /// The instruction that defines an id.
    pub fn defining(&self, id: u32) -> Option<&Inst>
        ensures { option_copied result ≡ definitions.defining self.now.insts id }
    {
        self.index.defining(id)
    }

    /// The type of the result with an id, where it has one.
    pub fn type_of_id(&self, id: u32) -> Option<u32>
        ensures { result ≡ definitions.result_type self.now.insts id }
    {
        self.index.result_type(id)
    }

    /// The instruction that begins at a word.
    pub fn at(&self, word: u32) -> Option<&Inst>
        ensures { option_copied result ≡ definitions.at self.now.insts word }
    {
        self.index.at(word)
    }

    /// What an id stands for, where an instruction defines it.
    pub fn meaning(&self, id: u32) -> Option<Meaning>
        ensures { result ≡ meaning_of self.now.insts id }
    {
        meaning_of(&self.index, id)
    }

    /// The types.
    pub fn types(&self) -> &TypeTable
        ensures { result.now ≡ self.now.types }
    {
        &self.types
    }

    /// The constants, in the order of the module.
    pub fn consts(&self) -> &ConstTable
        ensures { result.now ≡ self.now.constants }
    {
        &self.consts
    }

    /// The row of the constant with an id: its type, and its cells in order.
    pub fn constant(&self, id: u32) -> Option<Row<'_>>
        ensures { option_map (λ r. record { ty = r.ty; cells = r.cells.now }) result ≡ reads id self.now.constants }
    {
        self.consts.value(id)
    }

    /// The executable behind the one at a word, in its block; none where it is the block's last.
    pub fn next(&self, pc: u32) -> Option<u32>
        requires { IsSome (reads pc self.now.flow.nexts) }
        ensures { reads pc self.now.flow.nexts ≡ Some result }
    {
        self.flow.next(pc)
    }

    /// The first executable of the block with a label.
    pub fn first(&self, label: u32) -> u32
        requires { IsSome (reads label self.now.flow.blocks) }
        ensures { reads label self.now.flow.blocks ≡ Some result }
    {
        self.flow.first(label)
    }

    /// The control flow: the functions, blocks and calls.
    pub fn flow(&self) -> &Flow
        ensures { result.now ≡ self.now.flow }
    {
        &self.flow
    }

    /// The id of the entry point's function.
    pub fn entry(&self) -> u32
        ensures entry { result ≡ self.now.entry }
        ensures depth { reads result self.now.flow.depths ≡ Some self.now.depth }
    {
        self.entry.function
    }

    /// How many invocations a workgroup has in each of the three directions.
    pub fn size(&self) -> (u32, u32, u32)
        ensures { result ≡ self.now.size }
    {
        self.entry.size
    }

    /// How many invocations a workgroup has, from 1 to 1,024.
    pub fn invocations(&self) -> u32
        ensures count { result ≡ invocations self.now }
        ensures some { 0 < result }
        ensures limit { result ≤ 1024 }
    {
        let _insts = self.insts();
        let (x, y, z) = self.size();
        x * y * z
    }

    /// How many functions the longest chain of calls from the entry point has, from 1 to 64.
    pub fn depth(&self) -> u32
        ensures { result ≡ self.now.depth }
    {
        self.entry.depth
    }

    /// The most cells that the frames of an invocation have together. It stops at the greatest u64.
    pub fn stack_cells(&self) -> u64
        ensures { result ≡ self.now.stack_cells }
    {
        self.stack_cells
    }
}
