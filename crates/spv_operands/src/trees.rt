//! The trees of values that lie as cells, for proofs.
ghost use Rattle.std.specs.Prelude.{◌≡◌};
ghost use Rattle.spv_consts.specs.Trees.{value_at};

use spv_base::{Ghost, Value};
use spv_consts::Row;
use spv_mem::Variable;
use spv_types::TypeTable;

/// The tree of a constant.
pub fn of_constant(types: &TypeTable, row: &Row) -> Ghost<Value>
    ensures { result.value ≡ value_at types.now row.now.ty row.now.cells.now }
{
    let tree = Ghost::of();
    constant_by(&tree, types, row)
}

fn constant_by(tree: &Ghost<Value>, types: &TypeTable, row: &Row) -> Ghost<Value>
    ensures { result.value ≡ value_at types.now row.now.ty row.now.cells.now }
{
    tree.by(types, row)
}

/// The tree of a variable's value.
pub fn of_variable(variable: &Variable) -> Ghost<Value>
    ensures { result.value ≡ variable.now }
{
    let tree = Ghost::of();
    variable_by(&tree, variable)
}

fn variable_by(tree: &Ghost<Value>, variable: &Variable) -> Ghost<Value>
    ensures { result.value ≡ variable.now }
{
    tree.by(variable, tree)
}
