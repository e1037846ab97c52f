//! Whole composites and their parts: OpCompositeConstruct, OpCompositeExtract and OpCompositeInsert (SPIR-V 1.6 section 3.42.12).
ghost use Rattle.std.specs.Prelude.{◌≡◌, ℕ, OnOk, Some, drop, false, if◌then◌else◌, length, slice_get};
ghost use Rattle.std.specs.Option.{option_map_or};
ghost use Rattle.spv_base.specs.Parts.{part_at, with_part};
ghost use Rattle.spv_base.specs.declared.values.Value.{Value, List as Many};
ghost use Rattle.spv_valid.specs.Below.spv_bodies.specs.Composites.{KeepsConstruct, KeepsExtract, KeepsInsert};
ghost use Rattle.spv_valid.specs.Below.spv_bodies.specs.Context.{type_at};
ghost use Rattle.spv_effects.specs.Composites.{joined_value, leaves_in};
ghost use Rattle.spv_results.specs.Operands.{IsOperand, IsResult, known};
ghost use Rattle.spv_results.specs.Results.{constructed, numbers};
ghost use Rattle.spv_base.specs.Saturation.{saturated};
ghost use Rattle.spv_types.specs.Leaves.{leaf_of};
ghost use Rattle.spv_types.specs.Rows.{leaves};
ghost use Rattle.spv_types.specs.Rules.{has_runtime};
ghost use Rattle.spv_types.specs.Types.{form_of};

use crate::literals::path_of;
use crate::room::make_room;
use spv_base::{Inst, NoMemory, Path};
use spv_index::id_operand;
use spv_types::TypeTable;
use spv_types::queries::components_in;
use spv_valid::Module;
use spv_values::{Part, Row};
use std::alloc::Global;

/// OpCompositeConstruct: a vector of the components of its constituents, and an array or a struct of these as its parts. There is
/// one constituent for each operand.
pub fn construct(
    accepted: &Module,
    inst: &Inst,
    parts: &[Part],
    into: &mut Row,
) -> Result<(), NoMemory>
    requires rule { KeepsConstruct (known accepted.now) inst.now }
    requires sized { has_runtime accepted.now.types inst.now.ty ≡ false }
    requires count { length parts.now ≡ length inst.now.operands }
    requires parts { (n : ℕ) (v : Value) → slice_get parts.now n ≡ Some v → IsOperand accepted.now inst.now n v }
    ensures value { OnOk result (into.new ≡ constructed (form_of accepted.now.types inst.now.ty) parts.now) }
    ensures shape { OnOk result (IsResult accepted.now inst.now into.new) }
{
    make_room(accepted, inst, into)?;
    let joins = components_in(accepted.types().form(inst.ty)).is_some();
    put_together(joins, parts, into);
    Ok(())
}

/// The components of some parts as a vector, or the parts as a list.
fn put_together(joins: bool, parts: &[Part], into: &mut Row)
    requires { length (leaves into.old) ≡ leaves_in parts.now }
    ensures { into.new ≡ (if joins then joined_value parts.now else Many parts.now) }
{
    if joins {
        spv_effects::construct_vector(parts, into);
    } else {
        spv_effects::construct(parts, into);
    }
}

/// The type of the operand with a number.
fn type_at(accepted: &Module, inst: &Inst, n: usize) -> Option<u32>
    ensures { result ≡ type_at (known accepted.now) inst.now n }
{
    accepted.type_of_id(id_operand(inst, n)?)
}

/// How many cells a value has.
fn cells_in(part: &Part) -> usize
    ensures { result ≡ length (leaves part.now) }
{
    part.cells().len()
}

/// How many cells of a value of a type lie before the part that a path names.
fn cells_before(types: &TypeTable, ty: u32, path: &Path) -> usize
    ensures { result ≡ option_map_or saturated (leaf_of types.now ty path.now) 0 }
{
    match types.leaf(ty, path.as_slice()) {
        Some(cells) => cells as usize,
        None => 0,
    }
}

/// OpCompositeExtract: the part that the literals name. It takes memory for its path where this has more than eight indexes.
pub fn extract(
    alloc: Global,
    accepted: &Module,
    inst: &Inst,
    composite: &Part,
    into: &mut Row,
) -> Result<(), NoMemory>
    requires rule { KeepsExtract (known accepted.now) inst.now }
    requires sized { has_runtime accepted.now.types inst.now.ty ≡ false }
    requires composite { IsOperand accepted.now inst.now 0 composite.now }
    ensures value { OnOk result (part_at composite.now (numbers (drop 1 inst.now.operands)) ≡ Some into.new) }
    ensures shape { OnOk result (IsResult accepted.now inst.now into.new) }
{
    // There are fewer than 2 ^ 64, so the number of those before the part isn't saturated.
    let _cells = cells_in(composite);
    let path = path_of(alloc, &inst.operands.as_slice()[1..])?;
    let whole = type_at(accepted, inst, 0).unwrap_or(0);
    let start = cells_before(accepted.types(), whole, &path);
    make_room(accepted, inst, into)?;
    spv_effects::extract(composite, &path, start, into);
    Ok(())
}

/// OpCompositeInsert: the composite with an object in the place of the part that the literals name. It takes memory for its path
/// where this has more than eight indexes.
pub fn insert(
    alloc: Global,
    accepted: &Module,
    inst: &Inst,
    object: &Part,
    composite: &Part,
    into: &mut Row,
) -> Result<(), NoMemory>
    requires rule { KeepsInsert (known accepted.now) inst.now }
    requires sized { has_runtime accepted.now.types inst.now.ty ≡ false }
    requires object { IsOperand accepted.now inst.now 0 object.now }
    requires composite { IsOperand accepted.now inst.now 1 composite.now }
    ensures value { OnOk result (into.new ≡ with_part composite.now (numbers (drop 2 inst.now.operands)) object.now) }
    ensures shape { OnOk result (IsResult accepted.now inst.now into.new) }
{
    let path = path_of(alloc, &inst.operands.as_slice()[2..])?;
    let start = cells_before(accepted.types(), inst.ty, &path);
    make_room(accepted, inst, into)?;
    spv_effects::insert(object, composite, &path, start, into);
    Ok(())
}
