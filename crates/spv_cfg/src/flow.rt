//! The control flow of a module: its functions and blocks, for a debugger that goes through them.
ghost use Rattle.std.specs.Prelude.{◌≡◌, ◌↔◌, Some, IsSome, IsTrue, IfOk, length};
ghost use Rattle.spv_base.specs.Answers.{Answers};
ghost use Rattle.spv_base.specs.Entries.{reads};
ghost use Rattle.spv_base.specs.Lowest.{lowest};
ghost use Rattle.spv_cfg.specs.Flow as spec;
ghost use Rattle.spv_cfg.specs.Calls.{calls_in};

use crate::branches::branch_breach;
use crate::calls::{Calls, call_breach, depths_of};
use crate::edges::edges_of;
use crate::executables::{executables_of, followers_of};
use crate::layout::layout_breach;
use crate::phis::phi_breach;
use spv_base::{Fail, NoMemory, Refusal, lower};
use spv_index::{Index, Table};
use std::alloc::Global;
use std::marker::Model;

/// The control flow of a module: the executables of each block, which one comes after which, the depth of each function, and
/// the calls.
///
/// A pc is the word number of an executable: an instruction in a block that is no label, phi, variable, line, merge or
/// OpNop and that has a meaning at run time.
pub struct Flow {
    blocks: Table<u32>,
    nexts: Table<Option<u32>>,
    depths: Table<u32>,
    calls: Calls,
}

// Written out, so that it is proved once: a derived drop is proved again in each function that lets go of such a value.
impl Drop for Flow {
    fn drop(self) {
        let Flow {
            blocks,
            nexts,
            depths,
            calls,
        } = self;
        drop(blocks);
        drop(nexts);
        drop(depths);
        drop(calls);
    }
}

impl Model for Flow {
    ghost use Rattle.spv_cfg.specs.Flow as spec;

    ghost Value = { spec.Flow };

    ghost view = { λ c. record { blocks = c.blocks; nexts = c.nexts; depths = c.depths; calls = c.calls } };
}

/// The lowest word where a rule of blocks, terminators or phis is broken.
fn block_breach(alloc: Global, index: &Index) -> Result<Option<u32>, NoMemory>
    ensures { IfOk result (λ least. least ≡ lowest (spec.block_breaches index.now.insts)) }
{
    let stands = index.stands();
    let layout = layout_breach(&stands);
    let branches = branch_breach(alloc, index, &stands)?;
    let edges = edges_of(alloc, index, &stands)?;
    let phis = phi_breach(alloc, &edges, &stands)?;
    Ok(lower(layout, lower(branches, phis)))
}

/// For each function the length of the longest chain of calls from it.
fn chains_of(alloc: Global, index: &Index, calls: &Calls) -> Result<Vec<u32>, NoMemory>
    requires { calls.now ≡ calls_in index.now.insts }
    ensures lengths { IfOk result (λ lengths. lengths.items ≡ spec.lengths_of index.now.insts) }
    ensures len { IfOk result (λ lengths. length lengths.items ≡ length calls.now.functions) }
{
    calls.lengths(alloc)
}

/// The lowest word of a function from which a chain of calls is too long.
fn chain_breach(index: &Index, calls: &Calls, lengths: &[u32]) -> Option<u32>
    requires calls { calls.now ≡ calls_in index.now.insts }
    requires lengths { lengths.now ≡ spec.lengths_of index.now.insts }
    requires len { length lengths.now ≡ length calls.now.functions }
    ensures { result ≡ lowest (spec.call_breaches index.now.insts) }
{
    call_breach(calls.functions(), lengths)
}

/// The lower of two breaches, and at one word the one of blocks.
fn refusal_of(block: Option<u32>, call: Option<u32>) -> Option<Refusal>
    ensures { result ≡ spec.refusal block call }
{
    match (block, call) {
        (None, None) => None,
        (None, Some(word)) => Some(Refusal { code: 16, word }),
        (Some(word), None) => Some(Refusal { code: 15, word }),
        (Some(block), Some(call)) => Some(if call < block {
            Refusal {
                code: 16,
                word: call,
            }
        } else {
            Refusal {
                code: 15,
                word: block,
            }
        }),
    }
}

impl Flow {
    /// The control flow of a module, unless a rule of its functions and blocks is broken: the lowest breach is
    /// refused, with code 15 for blocks, terminators and phis (SPIR-V 1.6 sections 2.4 and 2.16.1), and with code 16
    /// for calls, where a chain of more than 64 functions or a cycle begins at a function.
    #[tactic(auto, unfolding(crate::specs::Flow::flow_of))]
    pub fn build(alloc: Global, index: &Index) -> Result<Flow, Fail<Refusal>>
        ensures { Answers (spec.flow_of index.now.insts) result }
    {
        let block = block_breach(alloc, index)?;
        let calls = Calls::of(alloc, index)?;
        let lengths = chains_of(alloc, index, &calls)?;
        let call = chain_breach(index, &calls, lengths.as_slice());
        match refusal_of(block, call) {
            Some(refusal) => Err(Fail::Refused(refusal)),
            None => Ok(Flow::new(alloc, index, calls, lengths.as_slice())?),
        }
    }

    /// The control flow of a module whose calls are known.
    fn new(alloc: Global, index: &Index, calls: Calls, lengths: &[u32]) -> Result<Flow, NoMemory>
        requires calls { calls ≡ calls_in index.now.insts }
        requires lengths { lengths.now ≡ spec.lengths_of index.now.insts }
        requires len { length lengths.now ≡ length calls.functions }
        ensures { IfOk result (λ flow. flow ≡ spec.flow_in index.now.insts) }
    {
        let depths = depths_of(alloc, calls.functions(), lengths)?;
        let executables = executables_of(alloc, &index.stands())?;
        let nexts = followers_of(alloc, executables.as_slice())?;
        let blocks = Table::new(alloc, executables)?;
        Ok(Flow {
            blocks,
            nexts,
            depths,
            calls,
        })
    }

    /// The functions, and the calls among them.
    pub fn calls(&self) -> &Calls
        ensures { result.now ≡ self.now.calls }
    {
        &self.calls
    }

    /// Whether this is the word number of an executable.
    pub fn is_pc(&self, word: u32) -> bool
        ensures { IsTrue result ↔ IsSome (reads word self.now.nexts) }
    {
        self.nexts.get(word).is_some()
    }

    /// Whether this is the label of a block.
    pub fn is_block(&self, label: u32) -> bool
        ensures { IsTrue result ↔ IsSome (reads label self.now.blocks) }
    {
        self.blocks.get(label).is_some()
    }

    /// Whether this is the id of a function.
    pub fn is_function(&self, id: u32) -> bool
        ensures { IsTrue result ↔ IsSome (reads id self.now.depths) }
    {
        self.depths.get(id).is_some()
    }

    /// The executable after a pc in its block. There is none exactly where the pc is the last one of its block.
    pub fn next(&self, pc: u32) -> Option<u32>
        requires { IsSome (reads pc self.now.nexts) }
        ensures { reads pc self.now.nexts ≡ Some result }
    {
        match self.nexts.get(pc) {
            Some(next) => next,
            None => unreachable!(),
        }
    }

    /// The first executable of the block with this label.
    pub fn first(&self, label: u32) -> u32
        requires { IsSome (reads label self.now.blocks) }
        ensures { reads label self.now.blocks ≡ Some result }
    {
        match self.blocks.get(label) {
            Some(first) => first,
            None => unreachable!(),
        }
    }

    /// How many functions the longest chain of calls from this function has, with this one.
    pub fn depth(&self, function: u32) -> u32
        requires { IsSome (reads function self.now.depths) }
        ensures { reads function self.now.depths ≡ Some result }
    {
        match self.depths.get(function) {
            Some(depth) => depth,
            None => unreachable!(),
        }
    }
}
