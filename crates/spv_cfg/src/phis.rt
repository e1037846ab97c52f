//! Phis (SPIR-V 1.6, OpPhi): one pair for each predecessor of the block.
ghost use Rattle.std.specs.Prelude.{◌≡◌, IfOk, map};
ghost use Rattle.std.specs.List.{list_all, flat_map};
ghost use Rattle.spv_base.specs.Lowest.{lowest};
ghost use Rattle.spv_cfg.specs.Phis as spec;

use crate::distinct::are_distinct;
use crate::edges::Edges;
use crate::operands::{are_ids, ids_in};
use crate::switches::cases_by_word;
use spv_base::{Inst, NoMemory, lower};
use spv_index::classes::Class;
use spv_index::positions::Position;
use spv_index::stands::Stands;
use std::alloc::Global;

/// The second of each pair.
fn seconds_of(alloc: Global, pairs: &[(u64, u32)]) -> Result<Vec<u64>, NoMemory>
    ensures { IfOk result (λ seconds. seconds.items ≡ map (λ pair. pair.1) pairs.now) }
{
    let mut seconds = Vec::new(alloc);
    for pair in pairs {
        seconds.push(u64::from(pair.1))?;
    }
    Ok(seconds)
}

/// Whether the second of each pair is a predecessor.
fn are_predecessors(edges: &Edges, label: u32, pairs: &[(u64, u32)]) -> bool
    ensures { result ≡ list_all (spec.is_predecessor edges.now label) (map (λ pair. pair.1) pairs.now) }
{
    for pair in pairs {
        if !edges.contains(label, pair.1) {
            return false;
        }
    }
    true
}

/// Whether a phi has ids in whole pairs, as many as there are predecessors of the block, each with another predecessor.
fn is_phi_right(alloc: Global, edges: &Edges, label: u32, inst: &Inst) -> Result<bool, NoMemory>
    ensures { IfOk result (λ right. right ≡ spec.is_phi_right edges.now label inst.now) }
{
    let ids = ids_in(alloc, inst.operands.as_slice())?;
    let pairs = cases_by_word(alloc, ids.as_slice())?;
    let parents = seconds_of(alloc, pairs.as_slice())?;
    let distinct = are_distinct(alloc, parents.as_slice())?;
    let predecessors = are_predecessors(edges, label, pairs.as_slice());
    let whole = are_ids(inst.operands.as_slice()) && ids.len() % 2 == 0;
    Ok(whole && parents.len() == edges.count(label) && predecessors && distinct)
}

/// The instruction, where it is a phi that is not right.
fn breach_at(
    alloc: Global,
    edges: &Edges,
    position: Position,
    class: Class,
    inst: &Inst,
) -> Result<Option<u32>, NoMemory>
    ensures { IfOk result (λ breach. breach ≡ lowest (spec.phi_breach edges.now (record { position = position; class = class; inst = inst.now }))) }
{
    if !(class.is_phi() && position.stage.in_block()) {
        return Ok(None);
    }
    if is_phi_right(alloc, edges, position.label, inst)? {
        Ok(None)
    } else {
        Ok(Some(inst.word))
    }
}

/// The lowest word of a phi that is not right.
pub fn phi_breach(alloc: Global, edges: &Edges, stands: &Stands) -> Result<Option<u32>, NoMemory>
    ensures { IfOk result (λ least. least ≡ lowest (flat_map (spec.phi_breach edges.now) stands.now)) }
{
    let mut least = None;
    for n in 0..stands.len() {
        let stand = stands.at(n);
        let next = breach_at(alloc, edges, stand.position, stand.class, stand.inst)?;
        least = lower(least, next);
    }
    Ok(least)
}
