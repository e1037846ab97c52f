//! Lent rows: a part of a value, where its cells lie.
ghost use Rattle.std.specs.Prelude.{◌≡◌, ◌+◌, Some};
ghost use Rattle.spv_base.specs.Parts.{part_at};
ghost use Rattle.spv_base.specs.declared.values.Value.{Value};
ghost use Rattle.spv_types.specs.Rows.{leaves};
ghost use Rattle.spv_values.specs.Places.{IsRowAt};

use crate::trees::{part_of, same};
use spv_base::{Cell, Ghost, Path, Value};
use std::marker::Model;

/// The cells of a value, in its order. Contracts see the value as a tree.
#[derive(Drop)]
pub struct Part<'a> {
    cells: &'a [Cell],
    tree: Ghost<Value>,
}

impl<'a> Model for Part<'a> {
    ghost use Rattle.std.specs.Prelude.{◌≡◌};
    ghost use Rattle.spv_base.specs.declared.values.Value.{Value as Whole};
    ghost use Rattle.spv_base.specs.contracts.values.Value.{the_row};
    ghost use Rattle.spv_types.specs.Rows.{leaves};

    ghost Value = { Whole };

    ghost coded = { the_row.coded };

    ghost view = { λ p. p.tree.value };

    ghost invariant = { λ p. leaves p.tree.value ≡ p.cells.now };
}

impl<'a> Part<'a> {
    /// These cells, as the value that the caller picks for them.
    pub fn of(cells: &'a [Cell]) -> Part<'a>
        ghost value: { Value }
        requires { leaves value ≡ cells.now }
        ensures { result ≡ value }
    {
        Part {
            cells,
            tree: Ghost::of(),
        }
    }

    /// These cells, as the value of this tree.
    pub fn with_tree(cells: &'a [Cell], tree: Ghost<Value>) -> Part<'a>
        requires { leaves tree.value ≡ cells.now }
        ensures { result ≡ tree.value }
    {
        Part { cells, tree }
    }

    /// The cells.
    pub fn cells(&self) -> &'a [Cell]
        ensures { result.now ≡ leaves self.now }
    {
        self.cells
    }

    /// The tree, for proofs.
    pub fn tree(&self) -> Ghost<Value>
        ensures { result.value ≡ self.now }
    {
        same(&self.tree)
    }

    /// The same value again.
    pub fn again(&self) -> Part<'a>
        ensures { result ≡ self.now }
    {
        Part {
            cells: self.cells,
            tree: same(&self.tree),
        }
    }

    /// The part that a path names, which lies behind `start` cells and has `len` of them.
    #[tactic(auto, using(crate::proofs::RowLemmas::row_within, crate::proofs::RowLemmas::row_is))]
    pub fn part(&self, path: &Path, start: usize, len: usize) -> Part<'a>
        requires { IsRowAt self.now path.now start len }
        ensures { part_at self.now path.now ≡ Some result }
    {
        Part {
            cells: &self.cells[start..start + len],
            tree: part_of(&self.tree, path),
        }
    }
}
