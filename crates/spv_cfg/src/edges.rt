//! The edges between the blocks of functions.
ghost use Rattle.std.specs.Prelude.{◌≡◌, ◌==◌, ◌&&◌, ℕ, IfOk, map, unwrap_or};
ghost use Rattle.std.specs.List.{filter, flat_map, list_any, count_by};
ghost use Rattle.std.specs.Ordering.{nat_cmp, ordering_then};
ghost use Rattle.std.specs.BTreeMap as tree;
ghost use Rattle.std.specs.BTreeSet as sorted;
ghost use Rattle.spv_cfg.specs.Branches.{is_within};
ghost use Rattle.spv_cfg.specs.Phis as spec;

use crate::branches::targets_of;
use crate::distinct::distinct;
use crate::labels::{is_within, selector_width};
use spv_base::{Inst, NoMemory};
use spv_index::Index;
use spv_index::classes::Class;
use spv_index::positions::Position;
use spv_index::stands::Stands;
use std::alloc::Global;
use std::collections::{BTreeMap, BTreeSet};
use std::marker::Model;

/// Edges, each the label of its target and the label of the block that it comes from.
#[derive(Drop)]
pub struct Edges {
    list: Vec<(u32, u32)>,
    pairs: BTreeSet<(u32, u32)>,
    counts: BTreeMap<u32, usize>,
}

impl Model for Edges {
    ghost use Rattle.std.specs.Prelude.{◌≡◌, ◌==◌, ◌&&◌, ℕ, List, unwrap_or};
    ghost use Rattle.std.specs.List.{list_any, count_by};
    ghost use Rattle.std.specs.Ordering.{nat_cmp, ordering_then};
    ghost use Rattle.std.specs.BTreeMap as tree;
    ghost use Rattle.std.specs.BTreeSet as sorted;

    ghost Value = { List (ℕ × ℕ) };

    ghost view = { λ e. e.list.items };

    ghost invariant = { λ e.
        ((target source : ℕ) → sorted.contains (λ x y. ordering_then (nat_cmp x.0 y.0) (nat_cmp x.1 y.1)) e.pairs (target, source)
        ≡ list_any (λ edge. (edge.0 == target) && (edge.1 == source)) e.list.items)
        × ((target : ℕ) → unwrap_or (tree.get nat_cmp e.counts target) 0 ≡ count_by (λ edge. edge.0 == target) e.list.items) };
}

/// How many of the edges go to each label.
fn counts_of(alloc: Global, edges: &[(u32, u32)]) -> Result<BTreeMap<u32, usize>, NoMemory>
    ensures { IfOk result (λ counts. (target : ℕ) → unwrap_or (tree.get nat_cmp counts target) 0 ≡ count_by (λ edge. edge.0 == target) edges.now) }
{
    let mut counts = BTreeMap::new(alloc);
    let mut i = edges.len();
    'back: while i > 0 {
        i -= 1;
        let target = edges[i].0;
        let count = counts.get(&target).copied().unwrap_or(0);
        counts.insert(target, count + 1)?;
    }
    Ok(counts)
}

/// The edges as a set.
fn pairs_of(alloc: Global, edges: &[(u32, u32)]) -> Result<BTreeSet<(u32, u32)>, NoMemory>
    ensures { IfOk result (λ pairs. (target source : ℕ) → sorted.contains (λ x y. ordering_then (nat_cmp x.0 y.0) (nat_cmp x.1 y.1)) pairs (target, source)
        ≡ list_any (λ edge. (edge.0 == target) && (edge.1 == source)) edges.now) }
{
    let mut pairs = BTreeSet::new(alloc);
    let mut i = edges.len();
    'back: while i > 0 {
        i -= 1;
        pairs.insert(edges[i])?;
    }
    Ok(pairs)
}

impl Edges {
    fn new(alloc: Global, list: Vec<(u32, u32)>) -> Result<Edges, NoMemory>
        ensures { IfOk result (λ edges. edges ≡ list.items) }
    {
        let pairs = pairs_of(alloc, list.as_slice())?;
        let counts = counts_of(alloc, list.as_slice())?;
        Ok(Edges {
            list,
            pairs,
            counts,
        })
    }

    /// Whether there is this edge.
    pub fn contains(&self, target: u32, source: u32) -> bool
        ensures { result ≡ list_any (λ edge. (edge.0 == target) && (edge.1 == source)) self.now }
    {
        self.pairs.contains(&(target, source))
    }

    /// How many edges go to a label.
    pub fn count(&self, target: u32) -> usize
        ensures { result ≡ count_by (λ edge. edge.0 == target) self.now }
    {
        self.counts.get(&target).copied().unwrap_or(0)
    }
}

/// The targets that are labels of this function.
fn within(
    alloc: Global,
    index: &Index,
    function: u32,
    targets: &[u32],
) -> Result<Vec<u32>, NoMemory>
    ensures { IfOk result (λ kept. kept.items ≡ filter (is_within index.now.insts function) targets.now) }
{
    let mut kept = Vec::new(alloc);
    for target in targets {
        if is_within(index, function, *target) {
            kept.push(*target)?;
        }
    }
    Ok(kept)
}

/// The edges from the block with this label to these targets.
fn edges_to(alloc: Global, label: u32, targets: &[u32]) -> Result<Vec<(u32, u32)>, NoMemory>
    ensures { IfOk result (λ edges. edges.items ≡ map (λ target. (target, label)) targets.now) }
{
    let mut edges = Vec::new(alloc);
    for target in targets {
        edges.push((*target, label))?;
    }
    Ok(edges)
}

/// The edges from a block of a function, with its terminator.
fn edges_by(
    alloc: Global,
    index: &Index,
    function: u32,
    label: u32,
    inst: &Inst,
) -> Result<Vec<(u32, u32)>, NoMemory>
    ensures { IfOk result (λ edges. edges.items ≡ spec.edges_by index.now.insts function label inst.now) }
{
    let targets = targets_of(alloc, selector_width(index, inst), inst)?;
    let kept = within(alloc, index, function, targets.as_slice())?;
    let once = distinct(alloc, kept.as_slice())?;
    edges_to(alloc, label, once.as_slice())
}

/// The edges from a block, at its terminator.
fn edges_from(
    alloc: Global,
    index: &Index,
    position: Position,
    class: Class,
    inst: &Inst,
) -> Result<Vec<(u32, u32)>, NoMemory>
    ensures { IfOk result (λ edges. edges.items ≡ spec.edges_from index.now.insts (record { position = position; class = class; inst = inst.now })) }
{
    if class.is_terminator() && position.stage.in_block() {
        edges_by(alloc, index, position.function, position.label, inst)
    } else {
        Ok(Vec::new(alloc))
    }
}

/// The edges between the blocks of each function.
pub fn edges_of(alloc: Global, index: &Index, stands: &Stands) -> Result<Edges, NoMemory>
    ensures { IfOk result (λ edges. edges ≡ flat_map (spec.edges_from index.now.insts) stands.now) }
{
    let mut edges = Vec::new(alloc);
    for n in 0..stands.len() {
        let stand = stands.at(n);
        let more = edges_from(alloc, index, stand.position, stand.class, stand.inst)?;
        edges.extend_from_slice(more.as_slice())?;
    }
    Edges::new(alloc, edges)
}
