//! The extended instructions of GLSL.std.450 on each lane of integers.
ghost use Rattle.std.specs.Prelude.{◌≡◌, length};
ghost use Rattle.spv_alu.specs.Glsl.{glsl_lane};
ghost use Rattle.spv_alu.specs.Lanes.{zip3};
ghost use Rattle.spv_effects.specs.GlslOps.{MayJoin, glsl_value};
ghost use Rattle.spv_types.specs.Rows.{leaves};

use crate::lanes::of_lanes;
use spv_alu::GlslOp;
use spv_base::Cell;
use spv_values::{Part, Row};

/// An extended instruction on each lane of its operands. One that has fewer than three doesn't look at the others, and is given
/// its first operand there again. It takes no memory.
pub fn glsl(operation: GlslOp, a: &Part, b: &Part, c: &Part, into: &mut Row)
    requires { MayJoin (leaves a.now) (leaves b.now) (leaves c.now) (length (leaves into.old)) }
    ensures value { into.new ≡ glsl_value operation a.now b.now c.now }
    ensures room { length (leaves into.new) ≡ length (leaves into.old) }
{
    let mut cells = into.take_cells();
    glsl_cells(
        operation,
        a.cells(),
        b.cells(),
        c.cells(),
        cells.as_mut_slice(),
    );
    *into = of_lanes(cells);
}

/// The same on rows.
fn glsl_cells(operation: GlslOp, a: &[Cell], b: &[Cell], c: &[Cell], into: &mut [Cell])
    requires { MayJoin a.now b.now c.now (length into.old) }
    ensures { into.new ≡ zip3 (glsl_lane operation) a.now b.now c.now }
{
    for i in 0..into.len() {
        into[i] = operation.apply(a[i], b[i], c[i]);
    }
}
