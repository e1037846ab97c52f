//! Walks over the instructions of a function.
ghost use Rattle.std.specs.Prelude.{◌≡◌, IfOk, Some, drop, find, true};
ghost use Rattle.std.specs.List.{flat_map};
ghost use Rattle.std.specs.Option.{is_some};
ghost use Rattle.spv_plans.specs.Members as spec;
ghost use Rattle.spv_plans.specs.Plans.{HasRegisters};
ghost use Rattle.spv_plans.specs.Registers.{AreCounted, register_of};

use crate::drafts::Draft;
use spv_base::NoMemory;
use spv_index::positions::Position;
use spv_index::stands::Stands;
use spv_types::TypeTable;
use std::alloc::Global;

/// Whether a position is in the function with an id.
fn is_within(function: u32, position: Position) -> bool
    ensures { result ≡ spec.is_within function position }
{
    position.stage.in_function() && position.function == function
}

/// The word of the first instruction from a number on at which a run stops.
pub fn first_stop(stands: &Stands, start: usize) -> u32
    requires { is_some (find spec.is_stop (drop start stands.now)) ≡ true }
    ensures { spec.first_stop (drop start stands.now) ≡ Some result }
{
    for n in start..stands.len() {
        let stand = stands.at(n);
        if stand.is_stop() {
            return stand.inst.word;
        }
    }
    unreachable!()
}

/// The plan of a function with its registers, where its instructions stand from a number on.
pub fn draft_of(
    alloc: Global,
    types: &TypeTable,
    stands: &Stands,
    start: usize,
    function: u32,
    first: u32,
) -> Result<Draft, NoMemory>
    requires { AreCounted types.now (drop start stands.now) }
    ensures function { IfOk result (λ draft. draft.function ≡ function) }
    ensures first { IfOk result (λ draft. draft.first ≡ first) }
    ensures registers { IfOk result (HasRegisters types.now (flat_map (register_of types.now) (spec.leading (spec.stands_in function) (drop start stands.now)))) }
{
    let mut draft = Draft::new(alloc, function, first);
    for n in start..stands.len() {
        let stand = stands.at(n);
        if !is_within(function, stand.position) {
            return Ok(draft);
        }
        draft.add(types, stand.inst)?;
    }
    Ok(draft)
}
