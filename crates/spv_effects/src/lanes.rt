//! Scalars and vectors as lanes.
ghost use Rattle.std.specs.Prelude.{◌≡◌, length};
ghost use Rattle.spv_base.specs.declared.values.Value.{Scalar};
ghost use Rattle.spv_effects.specs.Lanes.{lane_of, of_lanes};
ghost use Rattle.spv_types.specs.Rows.{leaves};

use spv_base::Cell;
use spv_values::{Part, Row, Single};
use std::slice;

/// These lanes as a value: one is a scalar, and several are a vector. It takes no memory.
#[tactic(auto, using(crate::proofs::LaneLemmas::leaves_of_lanes))]
pub(crate) fn of_lanes(cells: Vec<Cell>) -> Row
    ensures value { result ≡ of_lanes cells.items }
    ensures row { leaves result ≡ cells.items }
{
    Row::new(cells)
}

/// The one lane of a scalar.
#[tactic(auto, using(std::proofs::lemmas::List::get_or_default))]
pub(crate) fn lane_of(part: &Part) -> Cell
    requires { length (leaves part.now) ≡ 1 }
    ensures { result ≡ lane_of part.now }
{
    let cells = part.cells();
    cells[0]
}

/// Puts a scalar into a row of one cell.
#[tactic(auto, using(crate::proofs::LaneLemmas::one_leaf))]
pub(crate) fn put_lane(into: &mut Row, lane: Cell)
    requires { length (leaves into.old) ≡ 1 }
    ensures value { into.new ≡ Scalar lane }
    ensures room { length (leaves into.new) ≡ 1 }
{
    into.put_cell(lane);
}

/// A scalar of its own.
pub(crate) fn single_of(lane: Cell) -> Single
    ensures { result ≡ Scalar lane }
{
    Single::of_part(&Part::of(slice::from_ref(&lane)))
}
