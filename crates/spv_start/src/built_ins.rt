//! The built-in values of invocations (SPIR-V 1.6 section 3.21).
ghost use Rattle.std.specs.Prelude.{◌≡◌, ◌≤◌, ◌<◌, ◌*◌, ◌∷◌, [], ℕ, IfOk};
ghost use Rattle.spv_base.specs.Cell.{defined_cell};
ghost use Rattle.spv_base.specs.declared.values.Value.{Value};
ghost use Rattle.spv_start.specs.BuiltIns as spec;

use spv_base::{Cell, NoMemory};
use spv_ops::built_in;
use spv_setup::Workgroup;
use spv_values::Row;
use std::alloc::Global;

/// An invocation: its number, counted from 0, the size of its workgroup by x, y and z, each at least 1, and the numbers of the
/// workgroup.
#[derive(Clone, Copy)]
pub struct Invocation {
    pub index: u32,
    pub size: (u32, u32, u32),
    pub group: Workgroup,
}

/// One number of GlobalInvocationId.
fn global_along(group: u32, size: u32, local: u32) -> u32
    ensures { result ≡ spec.global_along group size local }
{
    let place = u128::from(group) * u128::from(size) + u128::from(local);
    (place % 4_294_967_296) as u32
}

impl Invocation {
    /// LocalInvocationId: the place in the workgroup, by x, y and z.
    pub fn local_id(&self) -> (u32, u32, u32)
        requires x { 1 ≤ self.now.size.0 }
        requires y { 1 ≤ self.now.size.1 }
        ensures { result ≡ spec.local_id self.now.size self.now.index }
    {
        let (x, y, _z) = self.size;
        (self.index % x, self.index / x % y, self.index / x / y)
    }

    /// GlobalInvocationId: the place among the invocations of all workgroups, by x, y and z, each in 32 bits.
    pub fn global_id(&self) -> (u32, u32, u32)
        requires x { 1 ≤ self.now.size.0 }
        requires y { 1 ≤ self.now.size.1 }
        ensures { result ≡ spec.global_id self.now.group.place self.now.size (spec.local_id self.now.size self.now.index) }
    {
        let (x, y, z) = self.local_id();
        let group = self.group.place;
        let size = self.size;
        (
            global_along(group.0, size.0, x),
            global_along(group.1, size.1, y),
            global_along(group.2, size.2, z),
        )
    }

    /// The numbers of a built-in that has three.
    fn three_of(&self, kind: u32) -> Option<(u32, u32, u32)>
        requires x { 1 ≤ self.now.size.0 }
        requires y { 1 ≤ self.now.size.1 }
        ensures { result ≡ spec.three_of self.now kind }
    {
        match kind {
            built_in::NUM_WORKGROUPS => Some(self.group.number),
            built_in::WORKGROUP_ID => Some(self.group.place),
            built_in::LOCAL_INVOCATION_ID => Some(self.local_id()),
            built_in::GLOBAL_INVOCATION_ID => Some(self.global_id()),
            _ => None,
        }
    }

    /// The row of a built-in of an Input variable, by its number; none where it is no such built-in.
    pub fn built_in(&self, alloc: Global, kind: u32) -> Result<Option<Row>, NoMemory>
        requires x { 1 ≤ self.now.size.0 }
        requires y { 1 ≤ self.now.size.1 }
        ensures { IfOk result (λ row. row ≡ spec.built_in self.now kind) }
    {
        if kind == built_in::LOCAL_INVOCATION_INDEX {
            return Ok(Some(row_of_word(alloc, self.index)?));
        }
        match self.three_of(kind) {
            Some(numbers) => Ok(Some(row_of_three(alloc, numbers)?)),
            None => Ok(None),
        }
    }
}

/// The cell of a number of 32 bits.
fn word(n: u32) -> Cell
    ensures { result ≡ defined_cell 32 n }
{
    Cell {
        bits: u64::from(n),
        width: 32,
        defined: true,
    }
}

/// One cell.
fn one_cell(alloc: Global, x: Cell) -> Result<Vec<Cell>, NoMemory>
    ensures { IfOk result (λ cells. cells.items ≡ x ∷ []) }
{
    Ok(vec![in alloc; x]?)
}

/// Three cells.
fn three_cells(alloc: Global, x: Cell, y: Cell, z: Cell) -> Result<Vec<Cell>, NoMemory>
    ensures { IfOk result (λ cells. cells.items ≡ x ∷ y ∷ z ∷ []) }
{
    Ok(vec![in alloc; x, y, z]?)
}

/// The row of one number of 32 bits.
#[tactic(auto, using(spv_types::proofs::Exports::leaves_scalar))]
fn row_of_word(alloc: Global, n: u32) -> Result<Row, NoMemory>
    ghost value: { Value }
    requires { value ≡ spec.word n }
    ensures { IfOk result (λ row. row ≡ value) }
{
    let cells = one_cell(alloc, word(n))?;
    Ok(Row::new(cells))
}

/// The row of three numbers of 32 bits.
#[tactic(auto, using(crate::proofs::BuiltInLemmas::three_leaves))]
fn row_of_three(alloc: Global, numbers: (u32, u32, u32)) -> Result<Row, NoMemory>
    ghost value: { Value }
    requires { value ≡ spec.three_words numbers }
    ensures { IfOk result (λ row. row ≡ value) }
{
    let cells = three_cells(alloc, word(numbers.0), word(numbers.1), word(numbers.2))?;
    Ok(Row::new(cells))
}

/// A law, with nothing to run: the invocation with a number lies so many behind the first, where x goes first, then y, then z.
#[tactic(auto, using(crate::proofs::BuiltInLemmas::place_of))]
pub fn invocations_lie_in_order()
    ensures { (size : spec.Three) (n : ℕ) → 1 ≤ size.0 → 1 ≤ size.1 → n < size.0 * size.1 * size.2 → spec.IsPlaceOf size (spec.local_id size n) n }
{}
