//! OpAny and OpAll.
ghost use Rattle.std.specs.Prelude.{◌≡◌, OnOk, Some};
ghost use Rattle.spv_alu.specs.Vectors.{vector_op};
ghost use Rattle.spv_valid.specs.Below.spv_bodies.specs.Lanes.{KeepsLanes};
ghost use Rattle.spv_effects.specs.Truths.{truth_value};
ghost use Rattle.spv_results.specs.Operands.{IsOperand, IsResult, known};

use crate::lanes::types_are_sound;
use spv_alu::VectorOp;
use spv_base::{Inst, NoMemory};
use spv_effects::resize;
use spv_valid::Module;
use spv_values::{Part, Row};

/// Whether a component of the vector, or each one, is true. `into` is resized: it takes memory only where it never had room for
/// a cell.
pub fn truth(
    accepted: &Module,
    inst: &Inst,
    operation: VectorOp,
    a: &Part,
    into: &mut Row,
) -> Result<(), NoMemory>
    requires operation { vector_op inst.now.op ≡ Some operation }
    requires rule { KeepsLanes (known accepted.now) inst.now }
    requires a { IsOperand accepted.now inst.now 0 a.now }
    ensures value { OnOk result (into.new ≡ truth_value operation a.now) }
    ensures shape { OnOk result (IsResult accepted.now inst.now into.new) }
{
    types_are_sound(accepted);
    resize(into, 1)?;
    spv_effects::any_all(operation, a, into);
    Ok(())
}
