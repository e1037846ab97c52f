//! Components of vectors: OpVectorExtractDynamic, OpVectorInsertDynamic and OpVectorShuffle (SPIR-V 1.6, section "Composite
//! Instructions").
ghost use Rattle.std.specs.Prelude.{◌≡◌, ◌<◌, length, map};
ghost use Rattle.spv_alu.specs.Vectors.{component_width};
ghost use Rattle.spv_base.specs.Cell.{undefined_cell};
ghost use Rattle.spv_effects.specs.Vectors.{component, extract_dynamic_value, insert_dynamic_value, shuffle_value, shuffled, with_component};
ghost use Rattle.spv_types.specs.Rows.{leaves};

use crate::lanes::{lane_of, of_lanes, put_lane};
use spv_alu::results::defined_if;
use spv_base::Cell;
use spv_values::{Part, Row};

/// The number that stands for an undefined component of a shuffle.
const UNDEFINED: u32 = 0xFFFF_FFFF;

/// OpVectorExtractDynamic: the component that an index names, with its mark; not defined where the index isn't, or names no
/// component. It takes no memory.
pub fn extract_dynamic(vector: &Part, index: &Part, into: &mut Row)
    requires vector { 0 < length (leaves vector.now) }
    requires index { length (leaves index.now) ≡ 1 }
    requires room { length (leaves into.old) ≡ 1 }
    ensures value { into.new ≡ extract_dynamic_value vector.now index.now }
    ensures room { length (leaves into.new) ≡ 1 }
{
    let index = lane_of(index);
    let component = component(vector.cells(), index.bits);
    put_lane(into, defined_if(index.defined, component));
}

/// An undefined component of a vector.
#[tactic(auto, using(crate::proofs::VectorLemmas::first_width))]
fn none_of(cells: &[Cell]) -> Cell
    requires { 0 < length cells.now }
    ensures { result ≡ undefined_cell (component_width cells.now) }
{
    defined_if(false, cells[0])
}

/// The component with a number; where there is none, an undefined one.
#[tactic(auto, using(crate::proofs::VectorLemmas::component_there, crate::proofs::VectorLemmas::component_past))]
fn component(cells: &[Cell], number: u64) -> Cell
    requires { 0 < length cells.now }
    ensures { result ≡ component cells.now number }
{
    if number < cells.len() as u64 {
        cells[number as usize]
    } else {
        none_of(cells)
    }
}

/// OpVectorInsertDynamic: the vector with another component in the place that an index names; no component is defined where the
/// index isn't, or names no place. It takes no memory.
pub fn insert_dynamic(vector: &Part, component: &Part, index: &Part, into: &mut Row)
    requires component { length (leaves component.now) ≡ 1 }
    requires index { length (leaves index.now) ≡ 1 }
    requires room { length (leaves into.old) ≡ length (leaves vector.now) }
    ensures value { into.new ≡ insert_dynamic_value vector.now component.now index.now }
    ensures room { length (leaves into.new) ≡ length (leaves into.old) }
{
    let component = lane_of(component);
    let index = lane_of(index);
    let mut cells = into.take_cells();
    insert_component(vector.cells(), component, index, cells.as_mut_slice());
    *into = of_lanes(cells);
}

/// The same on rows.
fn insert_component(vector: &[Cell], component: Cell, index: Cell, into: &mut [Cell])
    requires { length into.old ≡ length vector.now }
    ensures { into.new ≡ with_component vector.now component index }
{
    if index.defined && index.bits < vector.len() as u64 {
        into.copy_from_slice(vector);
        into[index.bits as usize] = component;
    } else {
        undefine(vector, into);
    }
}

/// An undefined component for each one of a vector.
fn undefine(vector: &[Cell], into: &mut [Cell])
    requires { length into.old ≡ length vector.now }
    ensures { into.new ≡ map (λ d. undefined_cell d.width) vector.now }
{
    for i in 0..into.len() {
        into[i] = defined_if(false, vector[i]);
    }
}

/// OpVectorShuffle: for each number the component with it among those of both vectors, with its mark, and an undefined one for
/// 0xFFFFFFFF. It takes no memory.
pub fn shuffle(first: &Part, second: &Part, numbers: &[u32], into: &mut Row)
    requires vector { 0 < length (leaves first.now) }
    requires room { length (leaves into.old) ≡ length numbers.now }
    ensures value { into.new ≡ shuffle_value first.now second.now numbers.now }
    ensures room { length (leaves into.new) ≡ length (leaves into.old) }
{
    let mut cells = into.take_cells();
    shuffle_cells(first.cells(), second.cells(), numbers, cells.as_mut_slice());
    *into = of_lanes(cells);
}

/// The same on rows.
fn shuffle_cells(first: &[Cell], second: &[Cell], numbers: &[u32], into: &mut [Cell])
    requires vector { 0 < length first.now }
    requires room { length into.old ≡ length numbers.now }
    ensures { into.new ≡ map (shuffled first.now second.now) numbers.now }
{
    for i in 0..into.len() {
        into[i] = shuffled(first, second, numbers[i]);
    }
}

/// One component of a shuffle.
#[tactic(auto, using(crate::proofs::VectorLemmas::component_left, crate::proofs::VectorLemmas::component_right, crate::proofs::VectorLemmas::component_neither))]
fn shuffled(first: &[Cell], second: &[Cell], number: u32) -> Cell
    requires { 0 < length first.now }
    ensures { result ≡ shuffled first.now second.now number }
{
    if number == UNDEFINED {
        return none_of(first);
    }
    let place = number as usize;
    if place < first.len() {
        return first[place];
    }
    let place = place - first.len();
    if place < second.len() {
        second[place]
    } else {
        none_of(first)
    }
}
