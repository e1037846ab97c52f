//! The instructions of GLSL.std.450 on integers, by how many operands they have. These stand behind the set and the number of the
//! instruction, so the first of them is operand 2.
ghost use Rattle.std.specs.Prelude.{◌≡◌, OnOk, Some, false};
ghost use Rattle.std.specs.Option.{option_and_then};
ghost use Rattle.spv_alu.specs.Glsl.{glsl_op};
ghost use Rattle.spv_valid.specs.Below.spv_bodies.specs.Lanes.{KeepsExtended, count_of};
ghost use Rattle.spv_effects.specs.GlslOps.{glsl_value};
ghost use Rattle.spv_index.specs.Classes.{is_debug};
ghost use Rattle.spv_index.specs.Operands.{literal_operand};
ghost use Rattle.spv_results.specs.Operands.{IsOperand, IsResult, known};

use crate::lanes::types_are_sound;
use spv_alu::GlslOp;
use spv_base::{Inst, NoMemory};
use spv_effects::resize;
use spv_valid::Module;
use spv_values::{Part, Row};

/// An instruction with one operand, on each lane. `into` is resized: it takes memory only where it never had room for as many
/// cells.
pub fn glsl_one(
    accepted: &Module,
    inst: &Inst,
    operation: GlslOp,
    a: &Part,
    into: &mut Row,
) -> Result<(), NoMemory>
    requires operation { option_and_then glsl_op (literal_operand inst.now 1) ≡ Some operation }
    requires set { is_debug (known accepted.now).sets inst.now ≡ false }
    requires rule { KeepsExtended (known accepted.now) inst.now }
    requires count { count_of inst.now ≡ 1 }
    requires a { IsOperand accepted.now inst.now 2 a.now }
    ensures value { OnOk result (into.new ≡ glsl_value operation a.now a.now a.now) }
    ensures shape { OnOk result (IsResult accepted.now inst.now into.new) }
{
    types_are_sound(accepted);
    resize(into, a.cells().len())?;
    let (second, third) = (a.again(), a.again());
    spv_effects::glsl(operation, a, &second, &third, into);
    Ok(())
}

/// An instruction with two operands, on each lane. `into` is resized: it takes memory only where it never had room for as many
/// cells.
pub fn glsl_two(
    accepted: &Module,
    inst: &Inst,
    operation: GlslOp,
    a: &Part,
    b: &Part,
    into: &mut Row,
) -> Result<(), NoMemory>
    requires operation { option_and_then glsl_op (literal_operand inst.now 1) ≡ Some operation }
    requires set { is_debug (known accepted.now).sets inst.now ≡ false }
    requires rule { KeepsExtended (known accepted.now) inst.now }
    requires count { count_of inst.now ≡ 2 }
    requires a { IsOperand accepted.now inst.now 2 a.now }
    requires b { IsOperand accepted.now inst.now 3 b.now }
    ensures value { OnOk result (into.new ≡ glsl_value operation a.now b.now b.now) }
    ensures shape { OnOk result (IsResult accepted.now inst.now into.new) }
{
    types_are_sound(accepted);
    resize(into, a.cells().len())?;
    let again = b.again();
    spv_effects::glsl(operation, a, b, &again, into);
    Ok(())
}

/// An instruction with three operands, on each lane. `into` is resized: it takes memory only where it never had room for as many
/// cells.
pub fn glsl_three(
    accepted: &Module,
    inst: &Inst,
    operation: GlslOp,
    a: &Part,
    b: &Part,
    c: &Part,
    into: &mut Row,
) -> Result<(), NoMemory>
    requires operation { option_and_then glsl_op (literal_operand inst.now 1) ≡ Some operation }
    requires set { is_debug (known accepted.now).sets inst.now ≡ false }
    requires rule { KeepsExtended (known accepted.now) inst.now }
    requires count { count_of inst.now ≡ 3 }
    requires a { IsOperand accepted.now inst.now 2 a.now }
    requires b { IsOperand accepted.now inst.now 3 b.now }
    requires c { IsOperand accepted.now inst.now 4 c.now }
    ensures value { OnOk result (into.new ≡ glsl_value operation a.now b.now c.now) }
    ensures shape { OnOk result (IsResult accepted.now inst.now into.new) }
{
    types_are_sound(accepted);
    resize(into, a.cells().len())?;
    spv_effects::glsl(operation, a, b, c, into);
    Ok(())
}
