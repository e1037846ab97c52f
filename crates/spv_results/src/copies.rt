//! Copies: OpCopyObject and OpCopyLogical (SPIR-V 1.6 section 3.42.12).
ghost use Rattle.std.specs.Prelude.{◌≡◌, OnOk, false};
ghost use Rattle.spv_valid.specs.Below.spv_bodies.specs.Composites.{KeepsCopyObject};
ghost use Rattle.spv_valid.specs.Below.spv_bodies.specs.Matching.{KeepsCopyLogical};
ghost use Rattle.spv_results.specs.Operands.{IsOperand, IsResult, known};
ghost use Rattle.spv_types.specs.Rules.{has_runtime};

use crate::room::make_room;
use spv_base::{Inst, NoMemory};
use spv_valid::Module;
use spv_values::{Part, Row};

/// OpCopyObject of a value: the value again.
pub fn copy(accepted: &Module, inst: &Inst, a: &Part, into: &mut Row) -> Result<(), NoMemory>
    requires rule { KeepsCopyObject (known accepted.now) inst.now }
    requires sized { has_runtime accepted.now.types inst.now.ty ≡ false }
    requires operand { IsOperand accepted.now inst.now 0 a.now }
    ensures value { OnOk result (into.new ≡ a.now) }
    ensures shape { OnOk result (IsResult accepted.now inst.now into.new) }
{
    make_room(accepted, inst, into)?;
    spv_effects::copy(a, into);
    Ok(())
}

/// OpCopyLogical: the same value, under a type that matches its own.
pub fn copy_logical(
    accepted: &Module,
    inst: &Inst,
    a: &Part,
    into: &mut Row,
) -> Result<(), NoMemory>
    requires rule { KeepsCopyLogical (known accepted.now) inst.now }
    requires sized { has_runtime accepted.now.types inst.now.ty ≡ false }
    requires operand { IsOperand accepted.now inst.now 0 a.now }
    ensures value { OnOk result (into.new ≡ a.now) }
    ensures shape { OnOk result (IsResult accepted.now inst.now into.new) }
{
    make_room(accepted, inst, into)?;
    spv_effects::copy(a, into);
    Ok(())
}
