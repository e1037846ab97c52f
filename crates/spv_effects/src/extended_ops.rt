//! The operations that give a struct of two: OpIAddCarry, OpISubBorrow, OpUMulExtended and OpSMulExtended (SPIR-V 1.6, section
//! "Arithmetic Instructions").
ghost use Rattle.std.specs.Prelude.{◌≡◌, ◌+◌, ◌++◌, length};
ghost use Rattle.spv_effects.specs.ExtendedOps.{MayExtend, extended_value, high_lanes, low_lanes};
ghost use Rattle.spv_types.specs.Rows.{leaves};

use spv_alu::ExtendedOp;
use spv_base::{Cell, Ghost, Value};
use spv_values::{Part, Row};

/// An operation on each lane of two operands that gives two lanes: the low-order part, and the carry, the borrow or the
/// high-order part. It takes no memory.
pub fn extended(operation: ExtendedOp, a: &Part, b: &Part, into: &mut Row)
    requires { MayExtend (leaves a.now) (leaves b.now) (length (leaves into.old)) }
    ensures value { into.new ≡ extended_value operation a.now b.now }
    ensures room { length (leaves into.new) ≡ length (leaves into.old) }
{
    let mut cells = into.take_cells();
    extended_cells(operation, a.cells(), b.cells(), cells.as_mut_slice());
    *into = extended_row(operation, a, b, cells);
}

/// The row of the result.
fn extended_row(operation: ExtendedOp, a: &Part, b: &Part, cells: Vec<Cell>) -> Row
    requires { cells.items ≡ low_lanes operation (leaves a.now) (leaves b.now) ++ high_lanes operation (leaves a.now) (leaves b.now) }
    ensures value { result ≡ extended_value operation a.now b.now }
    ensures row { leaves result ≡ cells.items }
{
    let tree = extended_tree(operation, a, b);
    Row::with_tree(cells, tree)
}

/// The tree of the result.
fn extended_tree(operation: ExtendedOp, a: &Part, b: &Part) -> Ghost<Value>
    ensures { result.value ≡ extended_value operation a.now b.now }
{
    let tree = a.tree();
    tree.by(&operation, b)
}

/// The same on rows: the first half of the result has the low-order parts.
fn extended_cells(operation: ExtendedOp, a: &[Cell], b: &[Cell], into: &mut [Cell])
    requires { MayExtend a.now b.now (length into.old) }
    ensures { into.new ≡ low_lanes operation a.now b.now ++ high_lanes operation a.now b.now }
{
    let half = a.len();
    let (low, high) = into.split_at_mut(half);
    extended_halves(operation, a, b, low, high);
}

/// The two halves of the result.
fn extended_halves(
    operation: ExtendedOp,
    a: &[Cell],
    b: &[Cell],
    low: &mut [Cell],
    high: &mut [Cell],
)
    requires lanes { MayExtend a.now b.now (length low.old + length high.old) }
    requires halves { length low.old ≡ length high.old }
    ensures low { low.new ≡ low_lanes operation a.now b.now }
    ensures high { high.new ≡ high_lanes operation a.now b.now }
{
    for i in 0..low.len() {
        let (lower, higher) = operation.apply(a[i], b[i]);
        low[i] = lower;
        high[i] = higher;
    }
}
