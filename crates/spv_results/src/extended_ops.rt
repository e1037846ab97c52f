//! The operations that give a struct of two: OpIAddCarry, OpISubBorrow, OpUMulExtended and OpSMulExtended.
ghost use Rattle.std.specs.Prelude.{◌≡◌, OnOk, Some};
ghost use Rattle.spv_alu.specs.Extended.{extended_op};
ghost use Rattle.spv_valid.specs.Below.spv_bodies.specs.Lanes.{KeepsLanes};
ghost use Rattle.spv_effects.specs.ExtendedOps.{extended_value};
ghost use Rattle.spv_results.specs.Operands.{IsOperand, IsResult, known};

use crate::lanes::types_are_sound;
use spv_alu::ExtendedOp;
use spv_base::{Inst, NoMemory};
use spv_effects::resize;
use spv_valid::Module;
use spv_values::{Part, Row};

/// The low-order lanes, and the carries, the borrows or the high-order lanes. `into` is resized: it takes memory only where it
/// never had room for as many cells.
pub fn extended(
    accepted: &Module,
    inst: &Inst,
    operation: ExtendedOp,
    a: &Part,
    b: &Part,
    into: &mut Row,
) -> Result<(), NoMemory>
    requires operation { extended_op inst.now.op ≡ Some operation }
    requires rule { KeepsLanes (known accepted.now) inst.now }
    requires a { IsOperand accepted.now inst.now 0 a.now }
    requires b { IsOperand accepted.now inst.now 1 b.now }
    ensures value { OnOk result (into.new ≡ extended_value operation a.now b.now) }
    ensures shape { OnOk result (IsResult accepted.now inst.now into.new) }
{
    types_are_sound(accepted);
    resize(into, 2 * a.cells().len())?;
    spv_effects::extended(operation, a, b, into);
    Ok(())
}
