//! Components of vectors: OpVectorExtractDynamic, OpVectorInsertDynamic and OpVectorShuffle (SPIR-V 1.6 section 3.42.12).
ghost use Rattle.std.specs.Prelude.{◌≡◌, ◌<◌, ◌≤◌, OnOk, drop, length};
ghost use Rattle.spv_valid.specs.Below.spv_bodies.specs.Composites.{KeepsExtractDynamic, KeepsInsertDynamic, KeepsShuffle};
ghost use Rattle.spv_effects.specs.Vectors.{extract_dynamic_value, insert_dynamic_value, shuffle_value};
ghost use Rattle.spv_results.specs.Operands.{IsOperand, IsResult, known};
ghost use Rattle.spv_results.specs.Results.{numbers};
ghost use Rattle.spv_types.specs.Rows.{leaves};

use crate::literals::put_numbers;
use crate::room::make_room;
use spv_base::{Inst, NoMemory, Operand};
use spv_valid::Module;
use spv_values::{Part, Row};

/// OpVectorExtractDynamic: the component that an index names, with its mark; not defined where the index isn't, or names no
/// component.
pub fn extract_dynamic(
    accepted: &Module,
    inst: &Inst,
    vector: &Part,
    index: &Part,
    into: &mut Row,
) -> Result<(), NoMemory>
    requires rule { KeepsExtractDynamic (known accepted.now) inst.now }
    requires vector { IsOperand accepted.now inst.now 0 vector.now }
    requires index { IsOperand accepted.now inst.now 1 index.now }
    ensures value { OnOk result (into.new ≡ extract_dynamic_value vector.now index.now) }
    ensures shape { OnOk result (IsResult accepted.now inst.now into.new) }
{
    make_room(accepted, inst, into)?;
    spv_effects::extract_dynamic(vector, index, into);
    Ok(())
}

/// OpVectorInsertDynamic: the vector with another component in the place that an index names; no component is defined where the
/// index isn't, or names no place.
pub fn insert_dynamic(
    accepted: &Module,
    inst: &Inst,
    vector: &Part,
    component: &Part,
    index: &Part,
    into: &mut Row,
) -> Result<(), NoMemory>
    requires rule { KeepsInsertDynamic (known accepted.now) inst.now }
    requires vector { IsOperand accepted.now inst.now 0 vector.now }
    requires component { IsOperand accepted.now inst.now 1 component.now }
    requires index { IsOperand accepted.now inst.now 2 index.now }
    ensures value { OnOk result (into.new ≡ insert_dynamic_value vector.now component.now index.now) }
    ensures shape { OnOk result (IsResult accepted.now inst.now into.new) }
{
    make_room(accepted, inst, into)?;
    spv_effects::insert_dynamic(vector, component, index, into);
    Ok(())
}

/// OpVectorShuffle: for each literal the component with this number among those of both vectors, with its mark, and an undefined
/// one for 0xFFFFFFFF.
pub fn shuffle(
    accepted: &Module,
    inst: &Inst,
    first: &Part,
    second: &Part,
    into: &mut Row,
) -> Result<(), NoMemory>
    requires rule { KeepsShuffle (known accepted.now) inst.now }
    requires first { IsOperand accepted.now inst.now 0 first.now }
    requires second { IsOperand accepted.now inst.now 1 second.now }
    ensures value { OnOk result (into.new ≡ shuffle_value first.now second.now (numbers (drop 2 inst.now.operands))) }
    ensures shape { OnOk result (IsResult accepted.now inst.now into.new) }
{
    make_room(accepted, inst, into)?;
    shuffle_by(&inst.operands.as_slice()[2..], first, second, into);
    Ok(())
}

/// The most components that a vector has.
const MOST: usize = 4;

/// The components that literals name.
fn shuffle_by(literals: &[Operand], first: &Part, second: &Part, into: &mut Row)
    requires few { length literals.now ≤ 4 }
    requires vector { 0 < length (leaves first.now) }
    requires room { length (leaves into.old) ≡ length literals.now }
    ensures { into.new ≡ shuffle_value first.now second.now (numbers literals.now) }
{
    let mut numbers = [0; MOST];
    let numbers = &mut numbers[..literals.len()];
    put_numbers(literals, numbers);
    spv_effects::shuffle(first, second, numbers, into);
}
