//! OpAny and OpAll: whether a lane of Booleans, or every one, is true (SPIR-V 1.6, section "Relational and Logical
//! Instructions").
ghost use Rattle.std.specs.Prelude.{◌≡◌, length};
ghost use Rattle.spv_effects.specs.Truths.{truth_value};
ghost use Rattle.spv_types.specs.Rows.{leaves};

use crate::lanes::put_lane;
use spv_alu::VectorOp;
use spv_values::{Part, Row};

/// Whether a lane, or every lane, is true; not defined where a lane isn't. It takes no memory.
pub fn any_all(operation: VectorOp, a: &Part, into: &mut Row)
    requires { length (leaves into.old) ≡ 1 }
    ensures value { into.new ≡ truth_value operation a.now }
    ensures room { length (leaves into.new) ≡ 1 }
{
    put_lane(into, operation.apply(a.cells()));
}
