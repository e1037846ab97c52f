//! The instructions that make, take apart and copy composites: their operands, in order, and the result (SPIR-V 1.6 sections 3.42.1 and
//! 3.42.12).
ghost use Rattle.std.specs.Prelude.{◌≡◌, ℕ, ◌<◌, IfOk, None, Some, false, length, slice_get, true};
ghost use Rattle.std.specs.List.{range_with_len};
ghost use Rattle.std.specs.Result.{result_map_both};
ghost use Rattle.spv_base.specs.declared.values.Value.{Value};
ghost use Rattle.spv_bodies.specs.Composites.{KeepsCopyObject};
ghost use Rattle.spv_sites.specs.Kept.{Keeps};
ghost use Rattle.spv_sites.specs.Sites as spec;
ghost use Rattle.spv_sites.specs.Sites.{Computes, Finds};
ghost use Rattle.spv_results.specs.Operands.{IsOperand, known};
ghost use Rattle.spv_results.specs.Results.{all_of};
ghost use Rattle.spv_types.specs.Rules.{has_runtime};

use spv_base::{Fail, NoMemory};
use spv_ops::op;
use spv_results::Computation;
use spv_sites::{Cause, Datum, Gain, Site, owned};
use spv_values::{Part, Row};
use std::alloc::Global;

/// OpUndef.
pub(crate) fn undefined(site: &Site, row: &mut Row) -> Result<Gain, Fail<Cause>>
    requires { Keeps site.now.program.accepted site.now.inst Computation.Undef }
    ensures { Computes site.now Computation.Undef row.new result }
{
    spv_results::undefined(site.alloc(), site.accepted(), site.inst(), row)?;
    Ok(Gain::Row)
}

/// OpVectorExtractDynamic: vector and index.
pub(crate) fn extract_dynamic(site: &Site, row: &mut Row) -> Result<Gain, Fail<Cause>>
    requires { Keeps site.now.program.accepted site.now.inst Computation.ExtractDynamic }
    ensures { Computes site.now Computation.ExtractDynamic row.new result }
{
    let vector = site.value(0)?;
    let index = site.value(1)?;
    spv_results::extract_dynamic(
        site.accepted(),
        site.inst(),
        &vector.part(),
        &index.part(),
        row,
    )?;
    Ok(Gain::Row)
}

/// OpVectorInsertDynamic: vector, component and index.
pub(crate) fn insert_dynamic(site: &Site, row: &mut Row) -> Result<Gain, Fail<Cause>>
    requires { Keeps site.now.program.accepted site.now.inst Computation.InsertDynamic }
    ensures { Computes site.now Computation.InsertDynamic row.new result }
{
    let _insts = site.accepted().insts();
    let vector = site.value(0)?;
    let component = site.value(1)?;
    let index = site.value(2)?;
    spv_results::insert_dynamic(
        site.accepted(),
        site.inst(),
        &vector.part(),
        &component.part(),
        &index.part(),
        row,
    )?;
    Ok(Gain::Row)
}

/// OpVectorShuffle: two vectors.
pub(crate) fn shuffle(site: &Site, row: &mut Row) -> Result<Gain, Fail<Cause>>
    requires { Keeps site.now.program.accepted site.now.inst Computation.Shuffle }
    ensures { Computes site.now Computation.Shuffle row.new result }
{
    let first = site.value(0)?;
    let second = site.value(1)?;
    spv_results::shuffle(
        site.accepted(),
        site.inst(),
        &first.part(),
        &second.part(),
        row,
    )?;
    Ok(Gain::Row)
}

/// The values of all operands.
fn constituents<'a>(site: &Site<'a>) -> Result<Vec<Datum<'a>>, Fail<Cause>>
    requires { (n : ℕ) → n < length site.now.inst.operands → spec.is_data_at site.now.program.accepted site.now.inst n ≡ true }
    ensures value { Finds (all_of (spec.values site.now) (range_with_len 0 (length site.now.inst.operands))) (result_map_both (λ vs. vs.items) (λ e. e) result) }
    ensures count { IfOk result (λ vs. length vs.items ≡ length site.now.inst.operands) }
    ensures shapes { IfOk result (λ vs. (n : ℕ) (v : Value) → slice_get vs.items n ≡ Some v → IsOperand site.now.program.accepted site.now.inst n v) }
{
    let count = site.inst().operands.len();
    let mut values = Vec::with_capacity(site.alloc(), count)?;
    for n in 0..count {
        values.push(site.value(n)?)?;
    }
    Ok(values)
}

/// Some values, lent.
fn parts<'b>(alloc: Global, values: &'b [Datum<'_>]) -> Result<Vec<Part<'b>>, NoMemory>
    ensures { IfOk result (λ parts. parts.items ≡ values.now) }
{
    let mut parts = Vec::with_capacity(alloc, values.len())?;
    for datum in values {
        parts.push(datum.part())?;
    }
    Ok(parts)
}

/// OpCompositeConstruct: the constituents.
pub(crate) fn construct(site: &Site, row: &mut Row) -> Result<Gain, Fail<Cause>>
    requires rule { Keeps site.now.program.accepted site.now.inst Computation.Construct }
    requires sized { has_runtime site.now.program.accepted.types site.now.inst.ty ≡ false }
    ensures { Computes site.now Computation.Construct row.new result }
{
    let _insts = site.accepted().insts();
    let values = constituents(site)?;
    let parts = parts(site.alloc(), values.as_slice())?;
    spv_results::construct(site.accepted(), site.inst(), parts.as_slice(), row)?;
    Ok(Gain::Row)
}

/// OpCompositeExtract: composite.
pub(crate) fn extract(site: &Site, row: &mut Row) -> Result<Gain, Fail<Cause>>
    requires rule { Keeps site.now.program.accepted site.now.inst Computation.Extract }
    requires sized { has_runtime site.now.program.accepted.types site.now.inst.ty ≡ false }
    ensures { Computes site.now Computation.Extract row.new result }
{
    let composite = site.value(0)?;
    spv_results::extract(
        site.alloc(),
        site.accepted(),
        site.inst(),
        &composite.part(),
        row,
    )?;
    Ok(Gain::Row)
}

/// OpCompositeInsert: object and composite.
pub(crate) fn insert(site: &Site, row: &mut Row) -> Result<Gain, Fail<Cause>>
    requires rule { Keeps site.now.program.accepted site.now.inst Computation.Insert }
    requires sized { has_runtime site.now.program.accepted.types site.now.inst.ty ≡ false }
    ensures { Computes site.now Computation.Insert row.new result }
{
    let object = site.value(0)?;
    let composite = site.value(1)?;
    spv_results::insert(
        site.alloc(),
        site.accepted(),
        site.inst(),
        &object.part(),
        &composite.part(),
        row,
    )?;
    Ok(Gain::Row)
}

/// OpCopyObject of a value.
fn copy_value(site: &Site, part: &Part, row: &mut Row) -> Result<Gain, Fail<Cause>>
    requires rule { KeepsCopyObject (known site.now.program.accepted) site.now.inst }
    requires sized { has_runtime site.now.program.accepted.types site.now.inst.ty ≡ false }
    requires value { spec.values site.now 0 ≡ Some part.now }
    requires shape { IsOperand site.now.program.accepted site.now.inst 0 part.now }
    ensures { Computes site.now Computation.Copy row.new result }
{
    spv_results::copy(site.accepted(), site.inst(), part, row)?;
    Ok(Gain::Row)
}

/// OpCopyObject: a value, or a pointer.
fn copy_object(site: &Site, row: &mut Row) -> Result<Gain, Fail<Cause>>
    requires rule { KeepsCopyObject (known site.now.program.accepted) site.now.inst }
    requires sized { has_runtime site.now.program.accepted.types site.now.inst.ty ≡ false }
    ensures { Computes site.now Computation.Copy row.new result }
{
    site.is_reached();
    let _insts = site.accepted().insts();
    let operand = site.operand(0)?;
    if let Some(part) = operand.part() {
        return copy_value(site, &part, row);
    }
    match operand.pointer(site.alloc()) {
        Some(reference) => {
            let pointer = owned(site.alloc(), reference)?;
            Ok(Gain::Pointer(Box::new(site.alloc(), pointer)?))
        }
        None => unreachable!(),
    }
}

/// OpCopyLogical: a value.
fn copy_logical(site: &Site, row: &mut Row) -> Result<Gain, Fail<Cause>>
    requires operation { site.now.inst.op ≡ 400 }
    requires rule { Keeps site.now.program.accepted site.now.inst Computation.Copy }
    requires sized { has_runtime site.now.program.accepted.types site.now.inst.ty ≡ false }
    ensures { Computes site.now Computation.Copy row.new result }
{
    let a = site.value(0)?;
    spv_results::copy_logical(site.accepted(), site.inst(), &a.part(), row)?;
    Ok(Gain::Row)
}

/// OpCopyObject and OpCopyLogical.
pub(crate) fn copy(site: &Site, row: &mut Row) -> Result<Gain, Fail<Cause>>
    requires rule { Keeps site.now.program.accepted site.now.inst Computation.Copy }
    requires sized { has_runtime site.now.program.accepted.types site.now.inst.ty ≡ false }
    ensures { Computes site.now Computation.Copy row.new result }
{
    if site.inst().op == op::COPY_LOGICAL {
        copy_logical(site, row)
    } else {
        copy_object(site, row)
    }
}
