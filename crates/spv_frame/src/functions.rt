//! The plans of the functions of a module, found by the ids of functions, and registers found by the ids of results.
ghost use Rattle.std.specs.Prelude.{◌≡◌, ◌<◌, ◌++◌, IfOk, OnOk, Some, length, map, slice_get};
ghost use Rattle.spv_base.specs.Entries.{reads};
ghost use Rattle.spv_frame.specs.Functions as spec;
ghost use Rattle.spv_frame.specs.Plans.{rooms};
ghost use Rattle.spv_frame.specs.Registers.{ids};

use crate::plans::Plan;
use crate::slots::{Place, Slot};
use spv_base::NoMemory;
use spv_index::Table;
use std::alloc::Global;
use std::marker::Model;
use std::rc::Rc;

/// Where the register of an id lies: the number of its function's plan, and its place in the frames of this function.
#[derive(Clone, Copy)]
pub struct Register {
    pub plan: usize,
    pub place: Place,
}

/// The plans of the functions of a module, in its order. A function, and a register or its type, is found by its id without a walk over
/// them (which is measured, and said by no clause).
pub struct Plans {
    list: Vec<Rc<Plan>>,
    /// By the id of a function, the number of its plan.
    numbers: Table<usize>,
    /// By the id of a parameter or a result, its register.
    registers: Table<Register>,
    /// By the id of a parameter or a result, its type.
    types: Table<u32>,
}

// Written out, so that it is proved once: a derived drop is proved again in each function that lets go of such a value.
impl Drop for Plans {
    fn drop(self) {
        let Plans {
            list,
            numbers,
            registers,
            types,
        } = self;
        drop(list);
        drop(numbers);
        drop(registers);
        drop(types);
    }
}

impl Model for Plans {
    ghost use Rattle.std.specs.Prelude.{◌≡◌, List, map};
    ghost use Rattle.spv_frame.specs.Functions.{numbered, registers_of, types_of};
    ghost use Rattle.spv_frame.specs.Registers.{Planned};

    ghost Value = { List Planned };

    ghost view = { λ p. map (λ plan. plan.value) p.list.items };

    ghost invariant = { λ p. (p.numbers ≡ numbered 0 (map (λ plan. plan.value) p.list.items)) × (p.registers ≡ registers_of (map (λ plan. plan.value) p.list.items)) × (p.types ≡ types_of (map (λ plan. plan.value) p.list.items)) };
}

impl Plans {
    /// These plans.
    pub fn new(alloc: Global, list: Vec<Rc<Plan>>) -> Result<Plans, NoMemory>
        ensures { IfOk result (λ plans. plans ≡ map (λ plan. plan.value) list.items) }
    {
        let numbers = numbers_of(alloc, list.as_slice())?;
        let registers = registers_of(alloc, list.as_slice())?;
        let types = types_of(alloc, list.as_slice())?;
        Ok(Plans {
            list,
            numbers,
            registers,
            types,
        })
    }

    /// The plans.
    pub fn list(&self) -> &[Rc<Plan>]
        ensures { map (λ plan. plan.value) result.now ≡ self.now }
    {
        self.list.as_slice()
    }

    /// The plan with a number, counted from 0.
    pub fn at(&self, number: usize) -> &Plan
        requires { number < length self.now }
        ensures { slice_get self.now number ≡ Some result.now }
    {
        self.list[number].as_ref()
    }

    /// The number of the plan of the function with an id, if there is one.
    pub fn number(&self, function: u32) -> Option<usize>
        ensures { result ≡ reads function (spec.numbered 0 self.now) }
    {
        self.numbers.get(function)
    }

    /// Where the register of a parameter or a result lies, if there is one.
    pub fn register(&self, id: u32) -> Option<Register>
        ensures { result ≡ reads id (spec.registers_of self.now) }
    {
        self.registers.get(id)
    }

    /// The type of a parameter or a result, if there is one.
    pub fn type_of(&self, id: u32) -> Option<u32>
        ensures { result ≡ reads id (spec.types_of self.now) }
    {
        self.types.get(id)
    }
}

/// The numbers of plans, by the ids of the functions.
fn numbers_of(alloc: Global, list: &[Rc<Plan>]) -> Result<Table<usize>, NoMemory>
    ensures { IfOk result (λ numbers. numbers ≡ spec.numbered 0 (map (λ plan. plan.value) list.now)) }
{
    let mut numbers = Vec::with_capacity(alloc, list.len())?;
    for (number, plan) in list.iter().enumerate() {
        numbers.push((plan.function(), number))?;
    }
    Table::new(alloc, numbers)
}

/// The registers of plans, by the ids of parameters and results.
fn registers_of(alloc: Global, list: &[Rc<Plan>]) -> Result<Table<Register>, NoMemory>
    ensures { IfOk result (λ registers. registers ≡ spec.registers_of (map (λ plan. plan.value) list.now)) }
{
    let mut registers = Vec::new(alloc);
    for (number, plan) in list.iter().enumerate() {
        list_registers(number, plan, &mut registers)?;
    }
    Table::new(alloc, registers)
}

/// Lists the registers of the plan with a number.
fn list_registers(
    number: usize,
    plan: &Plan,
    registers: &mut Vec<(u32, Register)>,
) -> Result<(), NoMemory>
    ensures { OnOk result (registers.new.items ≡ registers.old.items ++ spec.registers_in number plan.now) }
{
    list_values(number, plan.values.as_slice(), registers)?;
    list_pointers(number, plan.pointers.as_slice(), registers)
}

/// Lists the registers of values of the plan with a number.
fn list_values(
    plan: usize,
    slots: &[Slot],
    registers: &mut Vec<(u32, Register)>,
) -> Result<(), NoMemory>
    ensures { OnOk result (registers.new.items ≡ registers.old.items ++ spec.placed plan Place.Value 0 (ids (rooms slots.now))) }
{
    for (number, slot) in slots.iter().enumerate() {
        let place = Place::Value(number);
        registers.push((slot.id, Register { plan, place }))?;
    }
    Ok(())
}

/// Lists the registers of pointers of the plan with a number.
fn list_pointers(
    plan: usize,
    pointers: &[u32],
    registers: &mut Vec<(u32, Register)>,
) -> Result<(), NoMemory>
    ensures { OnOk result (registers.new.items ≡ registers.old.items ++ spec.placed plan Place.Pointer 0 pointers.now) }
{
    for (number, id) in pointers.iter().enumerate() {
        let place = Place::Pointer(number);
        registers.push((*id, Register { plan, place }))?;
    }
    Ok(())
}

/// The types of the registers of plans, by their ids.
fn types_of(alloc: Global, list: &[Rc<Plan>]) -> Result<Table<u32>, NoMemory>
    ensures { IfOk result (λ types. types ≡ spec.types_of (map (λ plan. plan.value) list.now)) }
{
    let mut types = Vec::new(alloc);
    for plan in list {
        list_types(plan, &mut types)?;
    }
    Table::new(alloc, types)
}

/// Lists the types of the registers of a plan.
fn list_types(plan: &Plan, types: &mut Vec<(u32, u32)>) -> Result<(), NoMemory>
    ensures { OnOk result (types.new.items ≡ types.old.items ++ plan.now.types) }
{
    types.extend_from_slice(plan.types.as_slice())?;
    Ok(())
}
