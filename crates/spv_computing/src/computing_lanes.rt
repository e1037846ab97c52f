//! The instructions that compute on lanes: their operands, in order, and the result (SPIR-V 1.6 sections 3.42.11 and 3.42.13 to 3.42.15,
//! and GLSL.std.450).
ghost use Rattle.std.specs.Prelude.{◌≡◌, ◌≢◌, false, length, Ok, Some};
ghost use Rattle.spv_alu.specs.declared.field_op.FieldOp.TheVariants.{BitFieldInsert};
ghost use Rattle.spv_sites.specs.Kept.{Keeps};
ghost use Rattle.spv_sites.specs.Sites.{Computes, values};
ghost use Rattle.spv_results.specs.Operands.{IsOperand, known};
ghost use Rattle.spv_types.specs.Rows.{leaves};
ghost use Rattle.spv_types.specs.Rules.{has_runtime};
ghost use Rattle.spv_bodies.specs.Lanes.{KeepsLanes, count_of};

use spv_alu::{BinaryOp, ExtendedOp, FieldOp, GlslOp, UnaryOp, VectorOp};
use spv_base::Fail;
use spv_results::Computation;
use spv_sites::{Cause, Gain, Site};
use spv_values::{Part, Row, Single};

/// A unary operation: its operand.
pub(crate) fn unary(site: &Site, operation: UnaryOp, row: &mut Row) -> Result<Gain, Fail<Cause>>
    requires { Keeps site.now.program.accepted site.now.inst (Computation.Unary operation) }
    ensures { Computes site.now (Computation.Unary operation) row.new result }
{
    let a = site.value(0)?;
    spv_results::unary(site.accepted(), site.inst(), operation, &a.part(), row)?;
    Ok(Gain::Row)
}

/// OpBitcast: its operand.
pub(crate) fn bitcast(site: &Site, row: &mut Row) -> Result<Gain, Fail<Cause>>
    requires { Keeps site.now.program.accepted site.now.inst Computation.Bitcast }
    ensures { Computes site.now Computation.Bitcast row.new result }
{
    let a = site.value(0)?;
    spv_results::bitcast(site.accepted(), site.inst(), &a.part(), row)?;
    Ok(Gain::Row)
}

/// OpAny and OpAll: a vector of Booleans.
pub(crate) fn truth(site: &Site, operation: VectorOp, row: &mut Row) -> Result<Gain, Fail<Cause>>
    requires { Keeps site.now.program.accepted site.now.inst (Computation.Truth operation) }
    ensures { Computes site.now (Computation.Truth operation) row.new result }
{
    let a = site.value(0)?;
    spv_results::truth(site.accepted(), site.inst(), operation, &a.part(), row)?;
    Ok(Gain::Row)
}

/// A binary operation on the values of its operands, which have one lane. Inlined: it is called once an event.
#[inline(always)]
pub fn binary_single(site: &Site, operation: BinaryOp, a: &Part, b: &Part) -> Single
    requires rule { Keeps site.now.program.accepted site.now.inst (Computation.Binary operation) }
    requires first { values site.now 0 ≡ Some a.now }
    requires second { values site.now 1 ≡ Some b.now }
    requires first_shape { IsOperand site.now.program.accepted site.now.inst 0 a.now }
    requires second_shape { IsOperand site.now.program.accepted site.now.inst 1 b.now }
    requires one { length (leaves a.now) ≡ 1 }
    ensures { Computes site.now (Computation.Binary operation) result (Ok Gain.Row) }
{
    spv_results::binary_single(site.accepted(), site.inst(), operation, a, b)
}

/// A binary operation: its operands.
pub(crate) fn binary(site: &Site, operation: BinaryOp, row: &mut Row) -> Result<Gain, Fail<Cause>>
    requires { Keeps site.now.program.accepted site.now.inst (Computation.Binary operation) }
    ensures { Computes site.now (Computation.Binary operation) row.new result }
{
    let a = site.value(0)?;
    let b = site.value(1)?;
    spv_results::binary(
        site.accepted(),
        site.inst(),
        operation,
        &a.part(),
        &b.part(),
        row,
    )?;
    Ok(Gain::Row)
}

/// OpBitFieldInsert: base, what is inserted, offset and count.
fn insert_field(site: &Site, row: &mut Row) -> Result<Gain, Fail<Cause>>
    requires { Keeps site.now.program.accepted site.now.inst (Computation.Field BitFieldInsert) }
    ensures { Computes site.now (Computation.Field BitFieldInsert) row.new result }
{
    let base = site.value(0)?;
    let insert = site.value(1)?;
    let offset = site.value(2)?;
    let count = site.value(3)?;
    spv_results::insert_field(
        site.accepted(),
        site.inst(),
        &base.part(),
        &insert.part(),
        &offset.part(),
        &count.part(),
        row,
    )?;
    Ok(Gain::Row)
}

/// OpBitFieldSExtract and OpBitFieldUExtract: base, offset and count.
fn extract_field(site: &Site, operation: FieldOp, row: &mut Row) -> Result<Gain, Fail<Cause>>
    requires rule { Keeps site.now.program.accepted site.now.inst (Computation.Field operation) }
    requires extracts { operation ≢ BitFieldInsert }
    ensures { Computes site.now (Computation.Field operation) row.new result }
{
    let base = site.value(0)?;
    let offset = site.value(1)?;
    let count = site.value(2)?;
    spv_results::extract_field(
        site.accepted(),
        site.inst(),
        operation,
        &base.part(),
        &offset.part(),
        &count.part(),
        row,
    )?;
    Ok(Gain::Row)
}

/// The fields of bits.
pub(crate) fn field(site: &Site, operation: FieldOp, row: &mut Row) -> Result<Gain, Fail<Cause>>
    requires { Keeps site.now.program.accepted site.now.inst (Computation.Field operation) }
    ensures { Computes site.now (Computation.Field operation) row.new result }
{
    match operation {
        FieldOp::BitFieldInsert => insert_field(site, row),
        FieldOp::BitFieldSExtract | FieldOp::BitFieldUExtract => extract_field(
            site, operation, row,
        ),
    }
}

/// The operations that give a struct of two: their operands.
pub(crate) fn extended(
    site: &Site,
    operation: ExtendedOp,
    row: &mut Row,
) -> Result<Gain, Fail<Cause>>
    requires { Keeps site.now.program.accepted site.now.inst (Computation.Extended operation) }
    ensures { Computes site.now (Computation.Extended operation) row.new result }
{
    let a = site.value(0)?;
    let b = site.value(1)?;
    spv_results::extended(
        site.accepted(),
        site.inst(),
        operation,
        &a.part(),
        &b.part(),
        row,
    )?;
    Ok(Gain::Row)
}

/// OpSelect of values: condition and two objects.
pub(crate) fn select(site: &Site, row: &mut Row) -> Result<Gain, Fail<Cause>>
    requires operation { site.now.inst.op ≡ 169 }
    requires rule { KeepsLanes (known site.now.program.accepted) site.now.inst }
    requires sized { has_runtime site.now.program.accepted.types site.now.inst.ty ≡ false }
    ensures { Computes site.now Computation.Select row.new result }
{
    let condition = site.value(0)?;
    let a = site.value(1)?;
    let b = site.value(2)?;
    spv_results::select(
        site.accepted(),
        site.inst(),
        &condition.part(),
        &a.part(),
        &b.part(),
        row,
    )?;
    Ok(Gain::Row)
}

/// An instruction of GLSL.std.450 with one operand, behind the set and the number.
fn glsl_one(site: &Site, operation: GlslOp, row: &mut Row) -> Result<Gain, Fail<Cause>>
    requires rule { Keeps site.now.program.accepted site.now.inst (Computation.Glsl operation) }
    requires count { count_of site.now.inst ≡ 1 }
    ensures { Computes site.now (Computation.Glsl operation) row.new result }
{
    let a = site.value(2)?;
    spv_results::glsl_one(site.accepted(), site.inst(), operation, &a.part(), row)?;
    Ok(Gain::Row)
}

/// One with two operands.
fn glsl_two(site: &Site, operation: GlslOp, row: &mut Row) -> Result<Gain, Fail<Cause>>
    requires rule { Keeps site.now.program.accepted site.now.inst (Computation.Glsl operation) }
    requires count { count_of site.now.inst ≡ 2 }
    ensures { Computes site.now (Computation.Glsl operation) row.new result }
{
    let a = site.value(2)?;
    let b = site.value(3)?;
    spv_results::glsl_two(
        site.accepted(),
        site.inst(),
        operation,
        &a.part(),
        &b.part(),
        row,
    )?;
    Ok(Gain::Row)
}

/// One with three operands.
fn glsl_three(site: &Site, operation: GlslOp, row: &mut Row) -> Result<Gain, Fail<Cause>>
    requires rule { Keeps site.now.program.accepted site.now.inst (Computation.Glsl operation) }
    requires count { count_of site.now.inst ≡ 3 }
    ensures { Computes site.now (Computation.Glsl operation) row.new result }
{
    let a = site.value(2)?;
    let b = site.value(3)?;
    let c = site.value(4)?;
    spv_results::glsl_three(
        site.accepted(),
        site.inst(),
        operation,
        &a.part(),
        &b.part(),
        &c.part(),
        row,
    )?;
    Ok(Gain::Row)
}

/// An instruction of GLSL.std.450. It has one to three operands.
pub(crate) fn glsl(site: &Site, operation: GlslOp, row: &mut Row) -> Result<Gain, Fail<Cause>>
    requires { Keeps site.now.program.accepted site.now.inst (Computation.Glsl operation) }
    ensures { Computes site.now (Computation.Glsl operation) row.new result }
{
    match site.inst().operands.len().saturating_sub(2) {
        1 => glsl_one(site, operation, row),
        2 => glsl_two(site, operation, row),
        _ => glsl_three(site, operation, row),
    }
}
