//! Fields of bits: OpBitFieldInsert, OpBitFieldSExtract and OpBitFieldUExtract.
ghost use Rattle.std.specs.Prelude.{◌≡◌, ◌≢◌, OnOk, Some};
ghost use Rattle.spv_alu.specs.Fields.{field_op};
ghost use Rattle.spv_alu.specs.declared.field_op.FieldOp.TheVariants.{BitFieldInsert};
ghost use Rattle.spv_valid.specs.Below.spv_bodies.specs.Lanes.{KeepsLanes};
ghost use Rattle.spv_effects.specs.Fields.{field_value};
ghost use Rattle.spv_results.specs.Operands.{IsOperand, IsResult, known};

use crate::lanes::types_are_sound;
use spv_alu::FieldOp;
use spv_base::{Inst, NoMemory};
use spv_effects::resize;
use spv_valid::Module;
use spv_values::{Part, Row};

/// Each lane of the base with the lowest bits of the inserted lane in the field at an offset and of a count of bits. `into` is
/// resized: it takes memory only where it never had room for as many cells.
pub fn insert_field(
    accepted: &Module,
    inst: &Inst,
    base: &Part,
    insert: &Part,
    offset: &Part,
    count: &Part,
    into: &mut Row,
) -> Result<(), NoMemory>
    requires operation { field_op inst.now.op ≡ Some BitFieldInsert }
    requires rule { KeepsLanes (known accepted.now) inst.now }
    requires base { IsOperand accepted.now inst.now 0 base.now }
    requires insert { IsOperand accepted.now inst.now 1 insert.now }
    requires offset { IsOperand accepted.now inst.now 2 offset.now }
    requires count { IsOperand accepted.now inst.now 3 count.now }
    ensures value { OnOk result (into.new ≡ field_value BitFieldInsert base.now insert.now offset.now count.now) }
    ensures shape { OnOk result (IsResult accepted.now inst.now into.new) }
{
    types_are_sound(accepted);
    resize(into, base.cells().len())?;
    spv_effects::field(FieldOp::BitFieldInsert, base, insert, offset, count, into);
    Ok(())
}

/// The field at an offset and of a count of bits in each lane of the base. `into` is resized: it takes memory only where it never
/// had room for as many cells.
pub fn extract_field(
    accepted: &Module,
    inst: &Inst,
    operation: FieldOp,
    base: &Part,
    offset: &Part,
    count: &Part,
    into: &mut Row,
) -> Result<(), NoMemory>
    requires operation { field_op inst.now.op ≡ Some operation }
    requires extracts { operation ≢ BitFieldInsert }
    requires rule { KeepsLanes (known accepted.now) inst.now }
    requires base { IsOperand accepted.now inst.now 0 base.now }
    requires offset { IsOperand accepted.now inst.now 1 offset.now }
    requires count { IsOperand accepted.now inst.now 2 count.now }
    ensures value { OnOk result (into.new ≡ field_value operation base.now base.now offset.now count.now) }
    ensures shape { OnOk result (IsResult accepted.now inst.now into.new) }
{
    types_are_sound(accepted);
    resize(into, base.cells().len())?;
    let again = base.again();
    spv_effects::field(operation, base, &again, offset, count, into);
    Ok(())
}
