//! What the frames of a function have: their registers, and where these lie.
ghost use Rattle.std.specs.Prelude.{◌≡◌, ◌+◌, ◌<◌, ◌≤◌, IfOk, IfSome, Some, drop, length, map, slice_get, take};
ghost use Rattle.std.specs.List.{AllByRecursion, range_with_len};
ghost use Rattle.spv_frame.specs.Contents.{Differ};
ghost use Rattle.spv_frame.specs.Plans.{AreApart, blank_of, slots_of, total};
ghost use Rattle.spv_frame.specs.Registers.{IsPointerSlotOf, IsSlotOf, ids};

use crate::slots::{Place, PointerSlot, Slot};
use spv_base::{Cell, Ghost, NoMemory, Value};
use spv_values::{Part, Row};
use std::alloc::Global;
use std::marker::Model;

/// What the frames of a function have. Contracts see its registers.
#[derive(Drop)]
pub struct Plan {
    pub(crate) function: u32,
    pub(crate) first: u32,
    pub(crate) parameters: Vec<Place>,
    pub(crate) values: Vec<Slot>,
    pub(crate) pointers: Vec<u32>,
    /// The types of registers, by their ids.
    pub(crate) types: Vec<(u32, u32)>,
    /// The row of a frame in which no register has a value.
    pub(crate) blank: Row,
}

impl Model for Plan {
    ghost use Rattle.spv_frame.specs.Registers.{Planned};
    ghost use Rattle.spv_frame.specs.Plans.{Keeps, rooms};

    ghost Value = { Planned };

    ghost view = { λ p. record { function = p.function; first = p.first; parameters = p.parameters.items; values = rooms p.values.items; pointers = p.pointers.items; types = p.types.items } };

    ghost invariant = { λ p. Keeps p.values.items p.blank p.pointers.items };
}

impl Plan {
    /// The plan of a function: the word number of its first executable, the places of its parameters, and its registers in the order
    /// of the module: those of values, each with the number of cells of its type, and those of pointers; and the types of registers,
    /// by their ids. It fails where memory runs out, as it does where a row has more cells than can be counted.
    pub fn new(
        alloc: Global,
        function: u32,
        first: u32,
        parameters: &[Place],
        values: &[(u32, u32)],
        pointers: &[u32],
        types: &[(u32, u32)],
    ) -> Result<Plan, NoMemory>
        requires values { AreApart (ids values.now) }
        requires pointers { AreApart pointers.now }
        ensures { IfOk result (λ plan. plan ≡ record { function = function; first = first; parameters = parameters.now; values = values.now; pointers = pointers.now; types = types.now }) }
    {
        Ok(Plan {
            function,
            first,
            parameters: Vec::from_slice(alloc, parameters)?,
            values: slots_of(alloc, values)?,
            pointers: Vec::from_slice(alloc, pointers)?,
            types: Vec::from_slice(alloc, types)?,
            blank: blank_of(alloc, values)?,
        })
    }

    /// The id of the function.
    pub fn function(&self) -> u32
        ensures { result ≡ self.now.function }
    {
        self.function
    }

    /// The word number of the function's first executable.
    pub fn first(&self) -> u32
        ensures { result ≡ self.now.first }
    {
        self.first
    }

    /// Where the parameters lie, in their order.
    pub fn parameters(&self) -> &[Place]
        ensures { result.now ≡ self.now.parameters }
    {
        self.parameters.as_slice()
    }

    /// How many registers of values there are.
    pub fn value_count(&self) -> usize
        ensures { result ≡ length self.now.values }
    {
        self.values.len()
    }

    /// How many registers of pointers there are.
    pub fn pointer_count(&self) -> usize
        ensures { result ≡ length self.now.pointers }
    {
        self.pointers.len()
    }

    /// Where the register of a value with a number lies.
    pub fn slot(&self, number: usize) -> &Slot
        requires { number < length self.now.values }
        ensures slot { IsSlotOf self.now.values result.now }
        ensures number { result.now.number ≡ number }
    {
        &self.values[number]
    }

    /// Where the registers of values lie from a number on, so many of them: those of the phis of a block, as they stand one behind the
    /// other in the module.
    pub fn slots(&self, first: usize, count: usize) -> &[Slot]
        requires { first + count ≤ length self.now.values }
        ensures slots { AllByRecursion (IsSlotOf self.now.values) result.now }
        ensures differ { Differ result.now }
        ensures numbers { map (λ s. s.number) result.now ≡ range_with_len first count }
    {
        slots_between(self.values.as_slice(), first, count)
    }

    /// Where the register of a pointer with a number lies.
    pub fn pointer_slot(&self, number: usize) -> PointerSlot
        requires { number < length self.now.pointers }
        ensures slot { IsPointerSlotOf self.now.pointers result }
        ensures number { result.number ≡ number }
        ensures id { slice_get self.now.pointers number ≡ Some result.id }
    {
        PointerSlot {
            id: self.pointers[number],
            number,
        }
    }
}

/// So many slots, from a number on.
fn slots_between(slots: &[Slot], first: usize, count: usize) -> &[Slot]
    requires { first + count ≤ length slots.now }
    ensures { result.now ≡ take count (drop first slots.now) }
{
    &slots[first..first + count]
}

/// Where some registers lie.
fn slots_of(alloc: Global, values: &[(u32, u32)]) -> Result<Vec<Slot>, NoMemory>
    ensures { IfOk result (λ slots. slots.items ≡ slots_of values.now) }
{
    let mut slots = Vec::with_capacity(alloc, values.len())?;
    let mut start: usize = 0;
    for (number, register) in values.iter().enumerate() {
        let len = register.1 as usize;
        slots.push(Slot {
            id: register.0,
            number,
            start,
            len,
        })?;
        start = start.checked_add(len).ok_or(NoMemory)?;
    }
    Ok(slots)
}

/// How many cells some registers have together; none where they can't be counted.
fn count_of(values: &[(u32, u32)]) -> Option<usize>
    ensures { IfSome result (λ count. count ≡ total values.now) }
{
    let mut count: usize = 0;
    for register in values {
        count = count.checked_add(register.1 as usize)?;
    }
    Some(count)
}

/// A row for some registers, of undefined cells.
#[tactic(auto, using(crate::proofs::PlanLemmas::blank_cells))]
fn blank_of(alloc: Global, values: &[(u32, u32)]) -> Result<Row, NoMemory>
    ensures { IfOk result (λ row. row ≡ blank_of values.now) }
{
    let count = count_of(values).ok_or(NoMemory)?;
    let blank = Cell {
        bits: 0,
        width: 1,
        defined: false,
    };
    let cells = vec![in alloc; blank; count]?;
    let tree = blank_tree(values);
    Ok(Row::of_part(alloc, &Part::with_tree(cells.as_slice(), tree))?)
}

/// The tree of a row of undefined cells.
fn blank_tree(values: &[(u32, u32)]) -> Ghost<Value>
    ensures { result.value ≡ blank_of values.now }
{
    let tree = Ghost::of();
    blank_by(&tree, values)
}

fn blank_by(tree: &Ghost<Value>, values: &[(u32, u32)]) -> Ghost<Value>
    ensures { result.value ≡ blank_of values.now }
{
    tree.by(&values, &values)
}
