//! The binary operations on each lane: arithmetic, shifts, bits, logic and comparisons (SPIR-V 1.6, sections "Arithmetic
//! Instructions", "Bit Instructions" and "Relational and Logical Instructions").
ghost use Rattle.std.specs.Prelude.{◌≡◌, length};
ghost use Rattle.std.specs.Simd.Lanes.{zip2};
ghost use Rattle.spv_alu.specs.Binary.{binary_lane};
ghost use Rattle.spv_effects.specs.BinaryOps.{MayMeet, binary_value};
ghost use Rattle.spv_types.specs.Rows.{leaves};

use crate::lanes::{lane_of, of_lanes, put_lane, single_of};
use spv_alu::BinaryOp;
use spv_base::Cell;
use spv_values::{Part, Row, Single};

/// A binary operation on each lane of two operands. It takes no memory.
pub fn binary(operation: BinaryOp, a: &Part, b: &Part, into: &mut Row)
    requires { MayMeet operation (leaves a.now) (leaves b.now) (length (leaves into.old)) }
    ensures value { into.new ≡ binary_value operation a.now b.now }
    ensures room { length (leaves into.new) ≡ length (leaves into.old) }
{
    if into.len() == 1 {
        put_lane(into, operation.apply(lane_of(a), lane_of(b)));
        return;
    }
    let mut cells = into.take_cells();
    binary_cells(operation, a.cells(), b.cells(), cells.as_mut_slice());
    *into = of_lanes(cells);
}

/// The same on two values of one lane: no row is needed for the result.
pub fn binary_single(operation: BinaryOp, a: &Part, b: &Part) -> Single
    requires { MayMeet operation (leaves a.now) (leaves b.now) 1 }
    ensures { result ≡ binary_value operation a.now b.now }
{
    single_of(operation.apply(lane_of(a), lane_of(b)))
}

/// A binary operation on each lane of two rows.
fn binary_cells(operation: BinaryOp, a: &[Cell], b: &[Cell], into: &mut [Cell])
    requires { MayMeet operation a.now b.now (length into.old) }
    ensures { into.new ≡ zip2 (binary_lane operation) a.now b.now }
{
    for i in 0..into.len() {
        into[i] = operation.apply(a[i], b[i]);
    }
}
