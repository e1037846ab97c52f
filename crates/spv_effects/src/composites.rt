//! Composites: OpCompositeConstruct, OpCompositeExtract, OpCompositeInsert, OpCopyObject and OpCopyLogical (SPIR-V 1.6, section
//! "Composite Instructions"). Each leaf keeps its mark.
ghost use Rattle.std.specs.Prelude.{◌≡◌, ◌+◌, ◌++◌, ◌≤◌, Some, drop, length, take};
ghost use Rattle.std.specs.List.{flat_map};
ghost use Rattle.spv_base.specs.Parts.{part_at, with_part};
ghost use Rattle.spv_base.specs.declared.values.Value.{List as Many};
ghost use Rattle.spv_effects.specs.Composites.{joined_value, leaves_in};
ghost use Rattle.spv_types.specs.Rows.{leaves};
ghost use Rattle.spv_values.specs.Places.{IsRowAt};

use crate::lanes::of_lanes;
use spv_base::{Cell, Ghost, Path, Value};
use spv_values::trees::replaced;
use spv_values::{Part, Row};

/// OpCompositeConstruct of an array, a struct, or a vector of scalars: these parts. It takes no memory.
pub fn construct(parts: &[Part], into: &mut Row)
    requires { length (leaves into.old) ≡ leaves_in parts.now }
    ensures value { into.new ≡ Many parts.now }
    ensures room { length (leaves into.new) ≡ length (leaves into.old) }
{
    let mut cells = into.take_cells();
    join_cells(parts, cells.as_mut_slice());
    *into = list_row(parts, cells);
}

/// The row of a list of parts.
fn list_row(parts: &[Part], cells: Vec<Cell>) -> Row
    requires { cells.items ≡ flat_map leaves parts.now }
    ensures value { result ≡ Many parts.now }
    ensures row { leaves result ≡ cells.items }
{
    let tree = list_tree(parts);
    Row::with_tree(cells, tree)
}

/// OpCompositeConstruct of a vector by scalars and vectors: their components, one behind the other. It takes no memory.
pub fn construct_vector(parts: &[Part], into: &mut Row)
    requires { length (leaves into.old) ≡ leaves_in parts.now }
    ensures value { into.new ≡ joined_value parts.now }
    ensures room { length (leaves into.new) ≡ length (leaves into.old) }
{
    let mut cells = into.take_cells();
    join_cells(parts, cells.as_mut_slice());
    *into = of_lanes(cells);
}

/// The tree of a list of parts.
fn list_tree(parts: &[Part]) -> Ghost<Value>
    ensures { result.value ≡ Many parts.now }
{
    let tree = Ghost::of();
    list_tree_by(&tree, parts)
}

fn list_tree_by(tree: &Ghost<Value>, parts: &[Part]) -> Ghost<Value>
    ensures { result.value ≡ Many parts.now }
{
    tree.by(&parts, tree)
}

/// The rows of some parts, one behind the other.
fn join_cells(parts: &[Part], into: &mut [Cell])
    requires { length into.old ≡ leaves_in parts.now }
    ensures { into.new ≡ flat_map leaves parts.now }
{
    let mut start = 0;
    for part in parts {
        let cells = part.cells();
        put_row(cells, start, into);
        start += cells.len();
    }
}

/// OpCompositeExtract: the part that a path names, which lies behind `start` cells. It takes no memory.
pub fn extract(composite: &Part, path: &Path, start: usize, into: &mut Row)
    requires { IsRowAt composite.now path.now start (length (leaves into.old)) }
    ensures value { part_at composite.now path.now ≡ Some into.new }
    ensures room { length (leaves into.new) ≡ length (leaves into.old) }
{
    let part = composite.part(path, start, into.len());
    copy(&part, into);
}

/// OpCompositeInsert: the composite with the object in place of the part that a path names, which lies behind `start` cells. It
/// takes no memory.
#[tactic(auto, using(spv_values::proofs::Exports::row_within))]
pub fn insert(object: &Part, composite: &Part, path: &Path, start: usize, into: &mut Row)
    requires place { IsRowAt composite.now path.now start (length (leaves object.now)) }
    requires room { length (leaves into.old) ≡ length (leaves composite.now) }
    ensures value { into.new ≡ with_part composite.now path.now object.now }
    ensures room { length (leaves into.new) ≡ length (leaves into.old) }
{
    let mut cells = into.take_cells();
    insert_cells(
        object.cells(),
        composite.cells(),
        start,
        cells.as_mut_slice(),
    );
    let tree = replaced(&composite.tree(), path, &object.tree());
    *into = Row::with_tree(cells, tree);
}

/// A row with another in the place of as many cells behind the first.
fn insert_cells(object: &[Cell], composite: &[Cell], start: usize, into: &mut [Cell])
    requires within { start + length object.now ≤ length composite.now }
    requires room { length into.old ≡ length composite.now }
    ensures { into.new ≡ take start composite.now ++ (object.now ++ drop (start + length object.now) composite.now) }
{
    into.copy_from_slice(composite);
    put_row(object, start, into);
}

/// Puts a row in the place of as many cells behind `start` others.
fn put_row(row: &[Cell], start: usize, into: &mut [Cell])
    requires { start + length row.now ≤ length into.old }
    ensures { into.new ≡ take start into.old ++ (row.now ++ drop (start + length row.now) into.old) }
{
    into[start..start + row.len()].copy_from_slice(row);
}

/// OpCopyObject; and OpCopyLogical, between types whose values are the same. It takes no memory.
pub fn copy(a: &Part, into: &mut Row)
    requires { length (leaves into.old) ≡ length (leaves a.now) }
    ensures value { into.new ≡ a.now }
    ensures room { length (leaves into.new) ≡ length (leaves into.old) }
{
    into.copy_part(a);
}
