//! Which modules are accepted.
ghost use Rattle.std.specs.Prelude.{◌≡◌, ◌↔◌, ℕ, ℤ, IfOk, List, Option, Ok, option_copied};
ghost use Rattle.spv_base.specs.Answers.{Answers};
ghost use Rattle.spv_ops.specs.Module.{IsDecoded};
ghost use Rattle.spv_valid.specs.Acceptance.{Accepted, Passes, acceptance, decoded_in, flow_with_bodies, front_of, known_of, parts_in, start_in};
ghost use Rattle.spv_valid.specs.Validity.{IsValid};

use crate::entry::{Entry, entry_of};
use crate::modules::Module;
use crate::stack::stack_cells;
use crate::validity::accepted_modules_are_valid;
use spv_base::{Fail, Overrides, Refusal};
use spv_bodies::check_bodies;
use spv_cfg::Flow;
use spv_consts::ConstTable;
use spv_index::Index;
use spv_ops::DecodedModule;
use spv_sections::{check_capabilities, check_ids, check_sections};
use spv_types::{TypeTable, check_layout};
use std::alloc::Global;

/// A fact, with nothing to run: an index is of a decoded module.
fn is_decoded(index: &Index)
    ensures { IsDecoded index.now }
{
    let _insts = index.insts();
}

/// Checks the order of the sections, the ids and what a module declares.
fn check_front(index: &Index) -> Result<(), Refusal>
    ensures { result ≡ front_of index.now }
{
    check_sections(index)?;
    check_ids(index)?;
    check_capabilities(index)?;
    Ok(())
}

/// The types, with the lengths of their arrays, and the constants, where the blocks are laid out.
fn read_types(
    alloc: Global,
    index: &Index,
    over: &Overrides,
) -> Result<(TypeTable, ConstTable), Fail<Refusal>>
    ensures { Answers (known_of index.now.insts over.now) result }
{
    let types = TypeTable::build(alloc, index)?;
    let (types, consts) = ConstTable::build(alloc, types, index, over)?;
    check_layout(alloc, &types, index)?;
    Ok((types, consts))
}

/// The control flow, where the bodies keep the rules.
fn read_flow(
    alloc: Global,
    types: &TypeTable,
    consts: &ConstTable,
    index: &Index,
) -> Result<Flow, Fail<Refusal>>
    ensures { Answers (flow_with_bodies (types.now, consts.now) index.now.insts) result }
{
    let flow = Flow::build(alloc, index)?;
    check_bodies(alloc, types, consts, index)?;
    Ok(flow)
}

/// What a run begins with.
#[derive(Drop)]
struct Start {
    flow: Flow,
    entry: Entry,
    /// The most cells that the frames of an invocation have together.
    stack_cells: u64,
}

/// The control flow, the entry point and the depth of the stack.
fn read_start(
    alloc: Global,
    types: &TypeTable,
    consts: &ConstTable,
    index: &Index,
    name: Option<&[u8]>,
) -> Result<Start, Fail<Refusal>>
    ensures { Answers (start_in (types.now, consts.now) index.now.insts (option_copied name.entry)) result }
{
    let flow = read_flow(alloc, types, consts, index)?;
    let entry = entry_of(types, consts, &flow, index, name)?;
    let stack_cells = stack_cells(alloc, types, flow.calls(), index, entry.function)?;
    Ok(Start {
        flow,
        entry,
        stack_cells,
    })
}

/// What is read off the index of a module.
#[derive(Drop)]
struct Parts {
    types: TypeTable,
    consts: ConstTable,
    start: Start,
}

/// All that is read off a module in which no rule is broken.
fn read_parts(
    alloc: Global,
    index: &Index,
    name: Option<&[u8]>,
    over: &Overrides,
) -> Result<Parts, Fail<Refusal>>
    ensures { Answers (parts_in index.now (option_copied name.entry) over.now) result }
{
    check_front(index)?;
    let (types, consts) = read_types(alloc, index, over)?;
    let start = read_start(alloc, &types, &consts, index, name)?;
    Ok(Parts {
        types,
        consts,
        start,
    })
}

/// A module, where no rule is broken.
///
/// `name` is that of its entry point, where it isn't to be the first one, and `over` has values for its SpecIds.
///
/// Refuses the breach of the first pass that has one: of those at the lowest word the one with the lowest code.
#[tactic(auto, using(crate::proofs::AcceptedLemmas::is_of_parts))]
pub fn accept(
    alloc: Global,
    decoded: DecodedModule,
    name: Option<&[u8]>,
    over: &Overrides,
) -> Result<Module, Fail<Refusal>>
    ensures due { Answers (acceptance decoded (option_copied name.entry) over.now) result }
    // What the module gives to a run over it.
    ensures valid { IfOk result IsValid }
{
    accepted_modules_are_valid();
    let index = Index::of(alloc, decoded)?;
    is_decoded(&index);
    let parts = read_parts(alloc, &index, name, over)?;
    let Parts {
        types,
        consts,
        start,
    } = parts;
    let Start {
        flow,
        entry,
        stack_cells,
    } = start;
    Ok(Module {
        index,
        types,
        consts,
        flow,
        entry,
        stack_cells,
    })
}

/// A law, with nothing to run: a module is accepted, and is seen as it is, exactly where no pass over it has a breach and
/// what is read off it is what the passes give.
pub fn accepted_modules_pass()
    ensures { (a : Accepted) (name : Option (List ℕ)) (over : List (ℕ × ℤ)) → (acceptance (decoded_in a) name over ≡ Ok a) ↔ Passes a name over }
{}
