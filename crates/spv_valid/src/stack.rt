//! How many cells the frames of an invocation have at most.
ghost use Rattle.std.specs.Prelude.{◌≡◌, ◌<◌, ℕ, IfOk, length, slice_index};
ghost use Rattle.std.specs.List.{All};
ghost use Rattle.std.specs.Option.{option_and_then, option_map};
ghost use Rattle.spv_types.specs.Cells.{cells_of};
ghost use Rattle.spv_base.specs.Saturation.{saturated};
ghost use Rattle.spv_cfg.specs.Calls.{calls_in};
ghost use Rattle.spv_cfg.specs.Chains as chains;
ghost use Rattle.spv_valid.specs.Stack as spec;

use spv_base::{Inst, NoMemory};
use spv_cfg::Calls;
use spv_index::stands::Stands;
use spv_index::{Index, type_in};
use spv_ops::op;
use spv_types::TypeTable;
use spv_types::queries::pointee;
use std::alloc::Global;

/// The type of what an instruction's register or variable keeps.
fn kept_type(types: &TypeTable, inst: &Inst) -> Option<u32>
    ensures { result ≡ spec.kept_type types.now inst.now }
{
    if inst.op == op::VARIABLE {
        Some(pointee(types.form(inst.ty))?.target)
    } else {
        type_in(inst)
    }
}

/// The cells of a type.
fn cells_of(types: &TypeTable, ty: Option<u32>) -> Option<u64>
    ensures { result ≡ option_map saturated (option_and_then (cells_of types.now) ty) }
{
    types.cells(ty?)
}

/// The cells of an instruction's register or variable, where it keeps one.
pub fn kept_cells(types: &TypeTable, inst: &Inst) -> Option<u64>
    ensures { result ≡ spec.kept_cells types.now inst.now }
{
    cells_of(types, kept_type(types, inst))
}

/// The cells of each instruction in a function, with the number of the function.
fn cells_by_function(
    alloc: Global,
    types: &TypeTable,
    calls: &Calls,
    stands: &Stands,
) -> Result<Vec<(usize, u64)>, NoMemory>
    ensures { IfOk result (λ kept. kept.items ≡ spec.cells_by_function types.now calls.now stands.now) }
{
    let mut kept = Vec::new(alloc);
    for n in 0..stands.len() {
        let stand = stands.at(n);
        if stand.position.stage.in_function() {
            let function = calls.number(stand.position.function);
            let cells = kept_cells(types, stand.inst);
            if let (Some(function), Some(cells)) = (function, cells) {
                kept.push((function, cells))?;
            }
        }
    }
    Ok(kept)
}

/// The cells of each function, by its number.
fn weights_of(alloc: Global, kept: &[(usize, u64)], count: usize) -> Result<Vec<u64>, NoMemory>
    requires { All (λ cells. cells.0 < count) kept.now }
    ensures len { IfOk result (λ weights. length weights.items ≡ count) }
    ensures weights { IfOk result (λ weights. (f : ℕ) → f < count → slice_index weights.items f ≡ saturated (spec.weight kept.now f)) }
{
    let mut weights: Vec<u64> = vec![in alloc; 0; count]?;
    let mut i = kept.len();
    'back: while i > 0 {
        i -= 1;
        let function = kept[i].0;
        let cells = weights[function].saturating_add(kept[i].1);
        weights[function] = cells;
    }
    Ok(weights)
}

/// By the number of a function, the most cells of a chain of calls from it.
fn chains_of(
    alloc: Global,
    types: &TypeTable,
    calls: &Calls,
    stands: &Stands,
) -> Result<Vec<u64>, NoMemory>
    ensures len { IfOk result (λ heaviest. length heaviest.items ≡ length calls.now.functions) }
    ensures heaviest { IfOk result (λ heaviest. (f : ℕ) → f < length calls.now.functions
        → slice_index heaviest.items f ≡ saturated (chains.heaviest chains.limit (spec.weight (spec.cells_by_function types.now calls.now stands.now)) calls.now.list f)) }
{
    let kept = cells_by_function(alloc, types, calls, stands)?;
    let weights = weights_of(alloc, kept.as_slice(), calls.count())?;
    calls.heaviest(alloc, weights.as_slice())
}

/// The most cells that the frames of an invocation have together, where its first frame is of the function with this id, and
/// `calls` are those of the module.
#[tactic(auto, unfolding(crate::specs::Stack::stack_cells))]
pub fn stack_cells(
    alloc: Global,
    types: &TypeTable,
    calls: &Calls,
    index: &Index,
    function: u32,
) -> Result<u64, NoMemory>
    requires { calls.now ≡ calls_in index.now.insts }
    ensures { IfOk result (λ cells. cells ≡ spec.stack_cells types.now index.now.insts function) }
{
    let heaviest = chains_of(alloc, types, calls, &index.stands())?;
    match calls.number(function) {
        Some(number) => Ok(heaviest[number]),
        None => Ok(0),
    }
}
