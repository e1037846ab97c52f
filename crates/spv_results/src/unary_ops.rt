//! The unary operations: OpSNegate, OpLogicalNot, OpNot, OpBitReverse, OpBitCount, OpUConvert and OpSConvert.
ghost use Rattle.std.specs.Prelude.{◌≡◌, OnOk, Some};
ghost use Rattle.spv_alu.specs.Unary.{unary_op};
ghost use Rattle.spv_valid.specs.Below.spv_bodies.specs.Lanes.{KeepsLanes};
ghost use Rattle.spv_effects.specs.UnaryOps.{unary_value};
ghost use Rattle.spv_results.specs.Operands.{IsOperand, IsResult, known};
ghost use Rattle.spv_results.specs.Results as spec;

use crate::lanes::{lane_width, types_are_sound};
use spv_alu::UnaryOp;
use spv_base::{Inst, NoMemory};
use spv_effects::resize;
use spv_valid::Module;
use spv_values::{Part, Row};

/// A unary operation on each lane of its operand. `into` is resized: it takes memory only where it never had room for as many
/// cells.
pub fn unary(
    accepted: &Module,
    inst: &Inst,
    operation: UnaryOp,
    a: &Part,
    into: &mut Row,
) -> Result<(), NoMemory>
    requires operation { unary_op inst.now.op ≡ Some operation }
    requires rule { KeepsLanes (known accepted.now) inst.now }
    requires a { IsOperand accepted.now inst.now 0 a.now }
    ensures value { OnOk result (into.new ≡ unary_value operation (spec.lane_width accepted.now.types inst.now.ty) a.now) }
    ensures shape { OnOk result (IsResult accepted.now inst.now into.new) }
{
    types_are_sound(accepted);
    let width = lane_width(accepted, inst.ty);
    resize(into, a.cells().len())?;
    spv_effects::unary(operation, width, a, into);
    Ok(())
}
