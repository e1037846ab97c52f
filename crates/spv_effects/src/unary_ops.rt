//! The unary operations on each lane: negations, bits and conversions (SPIR-V 1.6, sections "Arithmetic Instructions", "Bit
//! Instructions", "Relational and Logical Instructions" and "Conversion Instructions").
ghost use Rattle.std.specs.Prelude.{◌≡◌, length, map};
ghost use Rattle.spv_alu.specs.Unary.{unary_lane};
ghost use Rattle.spv_effects.specs.UnaryOps.{MayTurn, unary_value};
ghost use Rattle.spv_types.specs.Rows.{leaves};

use crate::lanes::of_lanes;
use spv_alu::UnaryOp;
use spv_base::Cell;
use spv_values::{Part, Row};

/// A unary operation on each lane of an operand, to lanes of a width in bits: OpSNegate, OpLogicalNot, OpNot, OpBitReverse,
/// OpBitCount, OpUConvert and OpSConvert. It takes no memory.
pub fn unary(operation: UnaryOp, width: u8, a: &Part, into: &mut Row)
    requires { MayTurn operation width (leaves a.now) (length (leaves into.old)) }
    ensures value { into.new ≡ unary_value operation width a.now }
    ensures room { length (leaves into.new) ≡ length (leaves into.old) }
{
    let mut cells = into.take_cells();
    unary_cells(operation, width, a.cells(), cells.as_mut_slice());
    *into = of_lanes(cells);
}

/// The same on rows.
fn unary_cells(operation: UnaryOp, width: u8, a: &[Cell], into: &mut [Cell])
    requires { MayTurn operation width a.now (length into.old) }
    ensures { into.new ≡ map (λ c. unary_lane operation c width) a.now }
{
    for i in 0..into.len() {
        into[i] = operation.apply(a[i], width);
    }
}
