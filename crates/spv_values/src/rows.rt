//! Rows that own their cells: variables, and the results of instructions.
ghost use Rattle.std.specs.Prelude.{◌≡◌, ◌+◌, [], IfOk, Some, length};
ghost use Rattle.spv_base.specs.Parts.{part_at, with_part};
ghost use Rattle.spv_base.specs.declared.values.Value.{Value, Scalar, List as Many};
ghost use Rattle.spv_types.specs.Rows.{leaves};
ghost use Rattle.spv_values.specs.Places.{IsRowAt};

use crate::parts::Part;
use crate::singles::Single;
use crate::trees::{no_parts, part_by, part_of, replaced_by, same, scalar, shadow};
use spv_base::{Cell, Ghost, NoMemory, Path, Value};
use std::alloc::Global;
use std::marker::Model;
use std::mem;

/// The cells of a value, in its order. Contracts see the value as a tree.
#[derive(Drop)]
pub struct Row {
    cells: Vec<Cell>,
    tree: Ghost<Value>,
}

impl Model for Row {
    ghost use Rattle.std.specs.Prelude.{◌≡◌};
    ghost use Rattle.spv_base.specs.declared.values.Value.{Value as Whole};
    ghost use Rattle.spv_base.specs.contracts.values.Value.{the_row};
    ghost use Rattle.spv_types.specs.Rows.{leaves};

    ghost Value = { Whole };

    ghost coded = { the_row.coded };

    ghost view = { λ r. r.tree.value };

    ghost invariant = { λ r. leaves r.tree.value ≡ r.cells.items };
}

impl Row {
    /// These cells, as the value that the caller picks for them.
    pub fn new(cells: Vec<Cell>) -> Row
        ghost value: { Value }
        requires { leaves value ≡ cells.items }
        ensures { result ≡ value }
    {
        Row {
            cells,
            tree: Ghost::of(),
        }
    }

    /// These cells, as the value of this tree.
    pub fn with_tree(cells: Vec<Cell>, tree: Ghost<Value>) -> Row
        requires { leaves tree.value ≡ cells.items }
        ensures { result ≡ tree.value }
    {
        Row { cells, tree }
    }

    /// A scalar.
    #[tactic(auto, using(spv_types::proofs::Exports::leaves_scalar))]
    pub fn of_cell(alloc: Global, cell: Cell) -> Result<Row, NoMemory>
        ensures { IfOk result (λ row. row ≡ Scalar cell) }
    {
        let cells = vec![in alloc; cell]?;
        let tree = Ghost::of();
        Ok(Row {
            cells,
            tree: scalar(&tree, &cell),
        })
    }

    /// A value that lies elsewhere, copied.
    pub fn of_part(alloc: Global, part: &Part) -> Result<Row, NoMemory>
        ensures { IfOk result (λ row. row ≡ part.now) }
    {
        Ok(Row {
            cells: Vec::from_slice(alloc, part.cells())?,
            tree: part.tree(),
        })
    }

    /// The cells.
    pub fn cells(&self) -> &[Cell]
        ensures { result.now ≡ leaves self.now }
    {
        self.cells.as_slice()
    }

    /// How many cells there are.
    pub fn len(&self) -> usize
        ensures { result ≡ length (leaves self.now) }
    {
        self.cells.len()
    }

    /// The value, lent.
    pub fn as_part(&self) -> Part<'_>
        ensures { result ≡ self.now }
    {
        Part::with_tree(self.cells.as_slice(), same(&self.tree))
    }

    /// The part that a path names, which lies behind `start` cells and has `len` of them.
    #[tactic(auto, using(crate::proofs::RowLemmas::row_within, crate::proofs::RowLemmas::row_is))]
    pub fn part(&self, path: &Path, start: usize, len: usize) -> Part<'_>
        requires { IsRowAt self.now path.now start len }
        ensures { part_at self.now path.now ≡ Some result }
    {
        Part::with_tree(&self.cells[start..start + len], part_of(&self.tree, path))
    }

    /// Puts a scalar in the place of a value of one cell. It takes no memory.
    #[tactic(auto, using(spv_types::proofs::Exports::leaves_scalar, crate::proofs::RowLemmas::one_set))]
    pub fn put_cell(&mut self, cell: Cell)
        requires { length (leaves self.old) ≡ 1 }
        ensures { self.new ≡ Scalar cell }
    {
        self.cells[0] = cell;
        self.tree = scalar(&self.tree, &cell);
    }

    /// Takes the value of a part of as many cells. It takes no memory.
    pub fn copy_part(&mut self, part: &Part)
        requires { length (leaves self.old) ≡ length (leaves part.now) }
        ensures { self.new ≡ part.now }
    {
        self.cells.as_mut_slice().copy_from_slice(part.cells());
        self.tree = part.tree();
    }

    /// Takes the cells out, to be filled anew, and leaves none. It takes no memory.
    #[tactic(auto, using(crate::proofs::RowLemmas::no_leaves))]
    pub fn take_cells(&mut self) -> Vec<Cell>
        ensures cells { result.items ≡ leaves self.old }
        ensures none { self.new ≡ Many [] }
    {
        let alloc = *self.cells.allocator();
        self.tree = no_parts(&self.tree);
        mem::replace(&mut self.cells, Vec::new(alloc))
    }

    /// Exchanges the part that a path names, which lies behind `start` cells, with a value of as many cells.
    pub fn exchange(&mut self, path: &Path, start: usize, other: &mut Row)
        requires { IsRowAt self.old path.now start (length (leaves other.old)) }
        ensures after { self.new ≡ with_part self.old path.now other.old }
        ensures handed { part_at self.old path.now ≡ Some other.new }
    {
        self.exchange_by(&shadow(path), start, other);
    }

    /// The same, where no code reads the path.
    #[tactic(auto, using(crate::proofs::RowLemmas::row_within, crate::proofs::RowLemmas::row_is))]
    pub fn exchange_by(&mut self, path: &Ghost<Path>, start: usize, other: &mut Row)
        requires { IsRowAt self.old path.now.value start (length (leaves other.old)) }
        ensures after { self.new ≡ with_part self.old path.now.value other.old }
        ensures handed { part_at self.old path.now.value ≡ Some other.new }
    {
        self.cells[start..start + other.cells.len()].swap_with_slice(other.cells.as_mut_slice());
        let part = part_by(&self.tree, path);
        self.tree = replaced_by(&self.tree, path, &other.tree);
        other.tree = part;
    }

    /// Exchanges the part that a path names, which is the cell behind `start` others, with a value of one cell. It takes no memory.
    #[tactic(auto, using(crate::proofs::RowLemmas::row_within, crate::proofs::RowLemmas::row_is, crate::proofs::SingleLemmas::cell_is, crate::proofs::SingleLemmas::cell_put, crate::proofs::SingleLemmas::cell_within))]
    pub fn exchange_single(&mut self, path: &Ghost<Path>, start: usize, other: &mut Single)
        requires { IsRowAt self.old path.now.value start 1 }
        ensures after { self.new ≡ with_part self.old path.now.value other.old }
        ensures handed { part_at self.old path.now.value ≡ Some other.new }
    {
        let cell = self.cells[start];
        self.cells[start] = other.cell;
        other.cell = cell;
        let old = part_by(&self.tree, path);
        self.tree = replaced_by(&self.tree, path, &other.tree);
        other.tree = old;
    }
}
