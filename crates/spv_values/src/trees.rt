//! Trees that only proofs read.
ghost use Rattle.std.specs.Prelude.{◌≡◌, [], IsSome, Some};
ghost use Rattle.spv_base.specs.Parts.{part_at, with_part};
ghost use Rattle.spv_base.specs.declared.values.Value.{Scalar, List as Many};

use spv_base::{Cell, Ghost, Path, Value};

/// The part that a path names.
pub fn part_of(tree: &Ghost<Value>, path: &Path) -> Ghost<Value>
    requires { IsSome (part_at tree.now.value path.now) }
    ensures { part_at tree.now.value path.now ≡ Some result.value }
{
    tree.by(path, tree)
}

/// A tree with another part where a path leads.
pub fn replaced(tree: &Ghost<Value>, path: &Path, part: &Ghost<Value>) -> Ghost<Value>
    ensures { result.value ≡ with_part tree.now.value path.now part.now.value }
{
    tree.by(path, part)
}

/// The tree of a scalar.
pub fn scalar(tree: &Ghost<Value>, cell: &Cell) -> Ghost<Value>
    ensures { result.value ≡ Scalar cell.now }
{
    tree.by(cell, tree)
}

/// The same tree.
pub fn same(tree: &Ghost<Value>) -> Ghost<Value>
    ensures { result.value ≡ tree.now.value }
{
    tree.by(tree, tree)
}

/// The tree of a list without parts.
pub fn no_parts(tree: &Ghost<Value>) -> Ghost<Value>
    ensures { result.value ≡ Many [] }
{
    tree.by(tree, tree)
}

/// A path that only proofs read.
pub fn shadow(path: &Path) -> Ghost<Path>
    ensures { result.value ≡ path.now }
{
    let none = Ghost::of();
    shadow_by(&none, path)
}

fn shadow_by(none: &Ghost<Path>, path: &Path) -> Ghost<Path>
    ensures { result.value ≡ path.now }
{
    none.by(path, path)
}

/// The part that a path names which only proofs read.
pub fn part_by(tree: &Ghost<Value>, path: &Ghost<Path>) -> Ghost<Value>
    requires { IsSome (part_at tree.now.value path.now.value) }
    ensures { part_at tree.now.value path.now.value ≡ Some result.value }
{
    tree.by(path, tree)
}

/// A tree with another part where such a path leads.
pub fn replaced_by(tree: &Ghost<Value>, path: &Ghost<Path>, part: &Ghost<Value>) -> Ghost<Value>
    ensures { result.value ≡ with_part tree.now.value path.now.value part.now.value }
{
    tree.by(path, part)
}
