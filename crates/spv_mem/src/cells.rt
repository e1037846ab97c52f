//! Memory: scalars, the elements of runtime arrays, and the cells of whole variables.
ghost use Rattle.std.specs.Prelude.{◌≡◌, IsSome};
ghost use Rattle.spv_base.specs.declared.values.Value.{Scalar, out-Value};
ghost use Rattle.spv_types.specs.Shapes.{scalar_in};

use spv_base::Cell;
use spv_values::Part;

/// The cell of a scalar. It takes no memory.
#[tactic(auto, using(spv_values::proofs::Exports::one_leaf, crate::proofs::CellLemmas::is_scalar))]
pub fn cell_of(part: &Part) -> Cell
    requires { IsSome (scalar_in (out-Value part.now)) }
    ensures { part.now ≡ Scalar result }
{
    let cells = part.cells();
    cells[0]
}
