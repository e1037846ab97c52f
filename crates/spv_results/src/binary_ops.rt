//! The binary operations: arithmetic, shifts, bits, logic and comparisons.
ghost use Rattle.std.specs.Prelude.{◌≡◌, OnOk, Some, length};
ghost use Rattle.spv_alu.specs.Binary.{binary_op};
ghost use Rattle.spv_valid.specs.Below.spv_bodies.specs.Lanes.{KeepsLanes};
ghost use Rattle.spv_effects.specs.BinaryOps.{binary_value};
ghost use Rattle.spv_results.specs.Operands.{IsOperand, IsResult, known};
ghost use Rattle.spv_types.specs.Rows.{leaves};

use crate::lanes::types_are_sound;
use spv_alu::BinaryOp;
use spv_base::{Inst, NoMemory};
use spv_effects::resize;
use spv_valid::Module;
use spv_values::{Part, Row, Single};

/// A binary operation on each lane of its operands. `into` is resized: it takes memory only where it never had room for as many
/// cells.
pub fn binary(
    accepted: &Module,
    inst: &Inst,
    operation: BinaryOp,
    a: &Part,
    b: &Part,
    into: &mut Row,
) -> Result<(), NoMemory>
    requires operation { binary_op inst.now.op ≡ Some operation }
    requires rule { KeepsLanes (known accepted.now) inst.now }
    requires a { IsOperand accepted.now inst.now 0 a.now }
    requires b { IsOperand accepted.now inst.now 1 b.now }
    ensures value { OnOk result (into.new ≡ binary_value operation a.now b.now) }
    ensures shape { OnOk result (IsResult accepted.now inst.now into.new) }
{
    types_are_sound(accepted);
    resize(into, a.cells().len())?;
    spv_effects::binary(operation, a, b, into);
    Ok(())
}

/// The same on operands of one lane. It takes no memory.
pub fn binary_single(
    accepted: &Module,
    inst: &Inst,
    operation: BinaryOp,
    a: &Part,
    b: &Part,
) -> Single
    requires operation { binary_op inst.now.op ≡ Some operation }
    requires rule { KeepsLanes (known accepted.now) inst.now }
    requires a { IsOperand accepted.now inst.now 0 a.now }
    requires b { IsOperand accepted.now inst.now 1 b.now }
    requires one { length (leaves a.now) ≡ 1 }
    ensures value { result ≡ binary_value operation a.now b.now }
    ensures shape { IsResult accepted.now inst.now result }
{
    types_are_sound(accepted);
    let _inst = inst;
    spv_effects::binary_single(operation, a, b)
}
