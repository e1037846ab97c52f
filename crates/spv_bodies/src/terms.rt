//! Terms, each kept once under a number.
ghost use Rattle.std.specs.Prelude.{◌≡◌, [], IfOk, Some, slice_get};
ghost use Rattle.spv_bodies.specs.declared.terms.Node.TheVariants.{Number, Pair};
ghost use Rattle.spv_bodies.specs.Terms.{AreDistinct, Grows};

use spv_base::NoMemory;
use std::alloc::Global;
use std::collections::BTreeMap;
use std::marker::Model;

/// A number, or a pair of two nodes, by their places.
#[derive(Clone, Copy)]
pub enum Node {
    Number(u32),
    Pair(usize, usize),
}

/// Nodes that all differ, each at its place, with look-ups in logarithmic time. Contracts see the list of them.
#[derive(Drop)]
pub struct Terms {
    nodes: Vec<Node>,
    numbers: BTreeMap<u32, usize>,
    pairs: BTreeMap<(usize, usize), usize>,
}

impl Model for Terms {
    ghost use Rattle.std.specs.Prelude.{◌≡◌, ◌↔◌, ℕ, List, Some, slice_get};
    ghost use Rattle.std.specs.Ordering.{nat_cmp};
    ghost use Rattle.std.specs.BTreeMap.{get};
    ghost use Rattle.spv_index.specs.Keys.{pair_cmp};
    ghost use Rattle.spv_bodies.specs.declared.terms.Node.{Node};
    ghost use Rattle.spv_bodies.specs.declared.terms.Node.TheVariants.{Number, Pair};

    ghost Value = { List Node };

    ghost view = { λ t. t.nodes.items };

    ghost invariant = { λ t. record {
      numbers_are : (k n : ℕ) → (get nat_cmp t.numbers k ≡ Some n) ↔ (slice_get t.nodes.items n ≡ Some (Number k));
      pairs_are : (x y n : ℕ) → (get pair_cmp t.pairs (x, y) ≡ Some n) ↔ (slice_get t.nodes.items n ≡ Some (Pair x y));
    } };
}

impl Terms {
    /// No nodes.
    pub fn new(alloc: Global) -> Terms
        ensures { result ≡ [] }
    {
        Terms {
            nodes: Vec::new(alloc),
            numbers: BTreeMap::new(alloc),
            pairs: BTreeMap::new(alloc),
        }
    }

    /// The place of a number.
    pub fn number(&mut self, number: u32) -> Result<usize, NoMemory>
        ensures grows { Grows self.old self.new }
        ensures there { IfOk result (λ n. slice_get self.new n ≡ Some (Number number)) }
    {
        if let Some(place) = self.numbers.get(&number) {
            return Ok(*place);
        }
        let place = self.nodes.len();
        self.nodes.push(Node::Number(number))?;
        if self.numbers.insert(number, place).is_err() {
            self.nodes.pop();
            return Err(NoMemory);
        }
        Ok(place)
    }

    /// The place of a pair.
    pub fn pair(&mut self, first: usize, second: usize) -> Result<usize, NoMemory>
        ensures grows { Grows self.old self.new }
        ensures there { IfOk result (λ n. slice_get self.new n ≡ Some (Pair first second)) }
    {
        if let Some(place) = self.pairs.get(&(first, second)) {
            return Ok(*place);
        }
        let place = self.nodes.len();
        self.nodes.push(Node::Pair(first, second))?;
        if self.pairs.insert((first, second), place).is_err() {
            self.nodes.pop();
            return Err(NoMemory);
        }
        Ok(place)
    }

    /// All nodes differ.
    pub fn differ(&self)
        ensures { AreDistinct self.now }
    {
        let _nodes = &self.nodes;
    }
}
