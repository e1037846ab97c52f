//! OpSelect.
ghost use Rattle.std.specs.Prelude.{◌≡◌, OnOk, false};
ghost use Rattle.spv_valid.specs.Below.spv_bodies.specs.Lanes.{KeepsLanes};
ghost use Rattle.spv_effects.specs.Selects.{select_value};
ghost use Rattle.spv_results.specs.Operands.{IsOperand, IsResult, known};
ghost use Rattle.spv_types.specs.Rules.{has_runtime};

use crate::lanes::types_are_sound;
use spv_base::{Inst, NoMemory};
use spv_effects::resize;
use spv_valid::Module;
use spv_values::{Part, Row};

/// The first object where the condition is true, else the second: for the whole by one Boolean, or for each component by one of
/// its own. `into` is resized: it takes memory only where it never had room for as many cells.
pub fn select(
    accepted: &Module,
    inst: &Inst,
    condition: &Part,
    a: &Part,
    b: &Part,
    into: &mut Row,
) -> Result<(), NoMemory>
    requires operation { inst.now.op ≡ 169 }
    requires rule { KeepsLanes (known accepted.now) inst.now }
    // As of each instruction of a function: two runtime arrays could differ in length.
    requires sized { has_runtime accepted.now.types inst.now.ty ≡ false }
    requires condition { IsOperand accepted.now inst.now 0 condition.now }
    requires a { IsOperand accepted.now inst.now 1 a.now }
    requires b { IsOperand accepted.now inst.now 2 b.now }
    ensures value { OnOk result (into.new ≡ select_value condition.now a.now b.now) }
    ensures shape { OnOk result (IsResult accepted.now inst.now into.new) }
{
    types_are_sound(accepted);
    resize(into, a.cells().len())?;
    spv_effects::select(condition, a, b, into);
    Ok(())
}
