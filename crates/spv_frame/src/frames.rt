//! Frames: the registers of a call in one row, each with a mark whether it has a value.
ghost use Rattle.std.specs.Prelude.{◌≡◌, ◌≢◌, ◌++◌, [], ◌∷◌, IfOk, OnOk, OnErr, None, Some, false, length, option_copied, replicate, ◌<◌, slice_get, map};
ghost use Rattle.spv_base.specs.Entries.{reads};
ghost use Rattle.spv_frame.specs.Frames.{Held, fresh, with_pointer_under, with_value_under};
ghost use Rattle.spv_frame.specs.Registers.{IsPointerSlotOf, IsSlotOf, marked, ids, number_of};
ghost use Rattle.spv_types.specs.Rows.{leaves};
ghost use Rattle.spv_frame.specs.Calls.{AreArguments, IsArgument, entered, with_argument};
ghost use Rattle.spv_frame.specs.Numbers.{HasCells, HasPointer, HoldsPointer, HoldsValue, with_pointer, with_value};
ghost use Rattle.std.specs.List.{AllByRecursion, AllZip};
ghost use Rattle.spv_frame.specs.Contents.{AllSuit, Differ, Suits, cells, content, held, with_contents};
ghost use Rattle.spv_frame.specs.Phis.{IsPhi, IsSource, cells_from, given, with_phis};

use crate::contents::{Argument, Content, Source};
use crate::events::DebugEvent;
use crate::numbers::{found, pointer_slot};
use crate::plans::Plan;
use crate::slots::{Place, PointerSlot, Slot, lent, path_to};
use spv_base::{NoMemory, Pointer};
use spv_values::{Part, Row, Single};
use std::alloc::Global;
use std::marker::Model;
use std::mem;
use std::rc::Rc;

/// A call: where it stands, its registers, and the debug events that it passed. Its variables lie in the memory.
#[derive(Drop)]
pub struct Frame {
    pub(crate) plan: Rc<Plan>,
    pub(crate) pc: u32,
    pub(crate) row: Row,
    pub(crate) has: Vec<bool>,
    pub(crate) pointers: Vec<Option<Pointer>>,
    pub(crate) events: Vec<DebugEvent>,
}

impl Model for Frame {
    ghost use Rattle.std.specs.Coded.{codes};
    ghost use Rattle.spv_base.specs.contracts.values.Value as value;
    ghost use Rattle.spv_frame.specs.Frames.{Fits, Held, shown};

    ghost Value = { Held };

    ghost coded = { Prim.hlevel (codes, value.the_row.coded) };

    ghost view = { λ f. shown f.plan.value f.pc f.row f.has.items f.pointers.items f.events.items };

    ghost invariant = { λ f. Fits f.plan.value f.row f.has.items f.pointers.items };
}

impl Frame {
    /// A frame as it begins: at the function's first executable, with no value in any register, and no event passed.
    pub fn new(alloc: Global, plan: &Rc<Plan>) -> Result<Frame, NoMemory>
        ensures { IfOk result (λ frame. frame ≡ fresh plan.now.value) }
    {
        Ok(Frame {
            plan: plan.clone()?,
            pc: plan.first,
            row: Row::of_part(alloc, &plan.blank.as_part())?,
            has: no_marks(alloc, plan.values.len())?,
            pointers: no_pointers(alloc, plan.pointers.len())?,
            events: Vec::new(alloc),
        })
    }

    /// An equal frame.
    pub fn copy(&self, alloc: Global) -> Result<Frame, NoMemory>
        ensures { IfOk result (λ frame. frame ≡ self.now) }
    {
        Ok(Frame {
            plan: self.plan.clone()?,
            pc: self.pc,
            row: Row::of_part(alloc, &self.row.as_part())?,
            has: Vec::from_slice(alloc, self.has.as_slice())?,
            pointers: pointers_copied(alloc, self.pointers.as_slice())?,
            events: events_copied(alloc, self.events.as_slice())?,
        })
    }

    /// The id of the function that runs in it.
    pub fn function(&self) -> u32
        ensures { result ≡ self.now.plan.function }
    {
        self.plan.function()
    }

    /// The word number of the next instruction.
    pub fn pc(&self) -> u32
        ensures { result ≡ self.now.pc }
    {
        self.pc
    }

    /// The debug events that were passed, the oldest first.
    pub fn events(&self) -> &[DebugEvent]
        ensures { result.now ≡ self.now.events }
    {
        self.events.as_slice()
    }

    /// The value of a register, if it has one.
    pub fn value(&self, slot: &Slot) -> Option<Part<'_>>
        requires { IsSlotOf self.now.plan.values slot.now }
        ensures { reads slot.now.id self.now.values ≡ Some result }
    {
        if self.has[slot.number] {
            Some(lent(&self.row, slot))
        } else {
            None
        }
    }

    /// What a register of a value holds, copied.
    pub fn content(&self, alloc: Global, slot: &Slot) -> Result<Content, NoMemory>
        requires { IsSlotOf self.now.plan.values slot.now }
        ensures content { IfOk result (λ c. reads slot.now.id self.now.values ≡ Some (marked c.row c.has)) }
        ensures cells { IfOk result (λ c. length (leaves c.row) ≡ slot.now.len) }
    {
        let part = lent(&self.row, slot);
        Ok(Content {
            row: Row::of_part(alloc, &part)?,
            has: self.has[slot.number],
        })
    }

    /// The pointer of a register, if it has one.
    pub fn pointer(&self, slot: PointerSlot) -> Option<&Pointer>
        requires { IsPointerSlotOf self.now.plan.pointers slot }
        ensures { reads slot.id self.now.pointers ≡ Some (option_copied result) }
    {
        self.pointers[slot.number].as_ref()
    }

    /// Exchanges the value of a register and its mark. It takes no memory, and the same call undoes it.
    pub fn exchange(&mut self, slot: &Slot, value: &mut Row, has: &mut bool)
        requires slot { IsSlotOf self.old.plan.values slot.now }
        requires room { length (leaves value.old) ≡ slot.now.len }
        ensures after { self.new ≡ with_value_under slot.now.id (marked value.old has.old) self.old }
        ensures handed { reads slot.now.id self.old.values ≡ Some (marked value.new has.new) }
        ensures room { length (leaves value.new) ≡ slot.now.len }
    {
        self.row
            .exchange_by(&path_to(slot.number), slot.start, value);
        mem::swap(&mut self.has[slot.number], has);
    }

    /// Exchanges the pointer of a register. It takes no memory, and the same call undoes it.
    pub fn exchange_pointer(&mut self, slot: PointerSlot, pointer: &mut Option<Pointer>)
        requires { IsPointerSlotOf self.old.plan.pointers slot }
        ensures after { self.new ≡ with_pointer_under slot.id pointer.old self.old }
        ensures handed { reads slot.id self.old.pointers ≡ Some pointer.new }
    {
        mem::swap(&mut self.pointers[slot.number], pointer);
    }

    /// Goes to an instruction, and gives the word number of the one before.
    pub fn set_pc(&mut self, pc: u32) -> u32
        ensures after { self.new ≡ record self.old { pc = pc } }
        ensures handed { result ≡ self.old.pc }
    {
        mem::replace(&mut self.pc, pc)
    }

    /// Appends a debug event that was passed.
    pub fn append(&mut self, event: DebugEvent) -> Result<(), NoMemory>
        ensures ok { OnOk result (self.new ≡ record self.old { events = self.old.events ++ event ∷ [] }) }
        ensures err { OnErr result (self.new ≡ self.old) }
    {
        self.events.push(event)?;
        Ok(())
    }

    /// Appends debug events that were passed, all or none.
    pub fn append_all(&mut self, mut events: Vec<DebugEvent>) -> Result<(), NoMemory>
        ensures ok { OnOk result (self.new ≡ record self.old { events = self.old.events ++ events.items }) }
        ensures err { OnErr result (self.new ≡ self.old) }
    {
        self.events.append(&mut events)?;
        Ok(())
    }

    /// Takes the last debug event away. It takes no memory.
    pub fn drop_event(&mut self) -> DebugEvent
        requires { self.old.events ≢ [] }
        ensures after { self.new ≡ record self.old { events = self.new.events } }
        ensures handed { self.old.events ≡ self.new.events ++ result ∷ [] }
    {
        match self.events.pop() {
            Some(event) => event,
            None => unreachable!(),
        }
    }

    /// A frame as a call begins it: at the function's first executable, with the arguments in the registers of the parameters, in
    /// order, no value in any other register, and no event passed.
    pub fn entered(
        alloc: Global,
        plan: &Rc<Plan>,
        arguments: &[Argument],
    ) -> Result<Frame, NoMemory>
        requires { AreArguments plan.now.value arguments.now }
        ensures { IfOk result (λ frame. frame ≡ entered plan.now.value arguments.now) }
    {
        let mut frame = Frame::new(alloc, plan)?;
        let parameters = plan.parameters();
        for (number, argument) in arguments.iter().enumerate() {
            frame.put_argument(alloc, plan, parameters[number], argument)?;
        }
        Ok(frame)
    }

    /// Puts an argument in the register at a place.
    fn put_argument(
        &mut self,
        alloc: Global,
        plan: &Plan,
        place: Place,
        argument: &Argument,
    ) -> Result<(), NoMemory>
        requires plan { self.old.plan ≡ plan.now }
        requires argument { IsArgument plan.now place argument.now }
        ensures { OnOk result (self.new ≡ with_argument self.old place argument.now) }
    {
        match (place, argument) {
            (Place::Value(number), Argument::Value(part)) => {
                let mut row = Row::of_part(alloc, part)?;
                let mut has = true;
                self.exchange(plan.slot(number), &mut row, &mut has);
            },
            (Place::Pointer(number), Argument::Pointer(pointer)) => {
                let mut pointer = Some(pointer.copy(alloc)?);
                self.exchange_pointer(plan.pointer_slot(number), &mut pointer);
            },
            _ => unreachable!(),
        }
        Ok(())
    }

    /// How many registers of values there are.
    pub fn value_count(&self) -> usize
        ensures { result ≡ length self.now.values }
    {
        self.plan.value_count()
    }

    /// The id of the register of a value with a number, and its value, if it has one.
    pub fn value_at(&self, number: usize) -> (u32, Option<Part<'_>>)
        requires { number < length self.now.values }
        ensures at { slice_get self.now.values number ≡ Some result }
        ensures id { number_of result.0 (ids self.now.plan.values) ≡ Some number }
        ensures read { reads result.0 self.now.values ≡ Some result.1 }
    {
        let slot = self.plan.slot(number);
        (slot.id, self.value(slot))
    }

    /// How many registers of pointers there are.
    pub fn pointer_count(&self) -> usize
        ensures { result ≡ length self.now.pointers }
    {
        self.plan.pointer_count()
    }

    /// The id of the register of a pointer with a number, and its pointer, if it has one.
    pub fn pointer_at(&self, number: usize) -> (u32, Option<&Pointer>)
        requires { number < length self.now.pointers }
        ensures at { slice_get self.now.pointers number ≡ Some (result.0, option_copied result.1) }
        ensures id { number_of result.0 self.now.plan.pointers ≡ Some number }
        ensures read { reads result.0 self.now.pointers ≡ Some (option_copied result.1) }
    {
        let slot = self.plan.pointer_slot(number);
        (slot.id, self.pointer(slot))
    }

    /// Exchanges the value of the register with a number, which has one cell, and its mark.
    pub fn exchange_single(&mut self, number: usize, value: &mut Single, has: &mut bool)
        requires { HasCells number 1 self.old }
        ensures after { self.new ≡ with_value number (marked value.old has.old) self.old }
        ensures handed { HoldsValue number (marked value.new has.new) self.old }
    {
        let place = found(&self.plan, number);
        let _cell = value.cell();
        self.row.exchange_single(&place.path, place.start, value);
        mem::swap(&mut self.has[number], has);
    }

    /// Exchanges the value of the register with a number and its mark.
    pub fn exchange_numbered(&mut self, number: usize, value: &mut Row, has: &mut bool)
        requires { HasCells number (length (leaves value.old)) self.old }
        ensures after { self.new ≡ with_value number (marked value.old has.old) self.old }
        ensures handed { HoldsValue number (marked value.new has.new) self.old }
    {
        let place = found(&self.plan, number);
        self.row.exchange_by(&place.path, place.start, value);
        mem::swap(&mut self.has[number], has);
    }

    /// Takes the value of the register with a number away.
    pub fn clear_numbered(&mut self, number: usize)
        requires { number < length self.old.plan.values }
        ensures { self.new ≡ with_value number None self.old }
    {
        let _place = found(&self.plan, number);
        self.has[number] = false;
    }

    /// Exchanges the pointer of the register with a number.
    pub fn exchange_numbered_pointer(&mut self, number: usize, pointer: &mut Option<Pointer>)
        requires { HasPointer number self.old }
        ensures after { self.new ≡ with_pointer number pointer.old self.old }
        ensures handed { HoldsPointer number pointer.new self.old }
    {
        let slot = pointer_slot(&self.plan, number);
        self.exchange_pointer(slot, pointer);
    }

    /// Exchanges what a register holds. It takes no memory, and the same call undoes it.
    fn exchange_content(&mut self, slot: &Slot, other: &mut Content)
        requires { Suits self.old.plan.values slot.now other.old }
        ensures after { self.new ≡ with_value_under slot.now.id (content other.old) self.old }
        ensures handed { content other.new ≡ held self.old slot.now }
        ensures suits { Suits self.old.plan.values slot.now other.new }
    {
        self.exchange(slot, &mut other.row, &mut other.has);
    }

    /// Exchanges what registers hold, one for each. It takes no memory, and the same call undoes it.
    pub fn exchange_all(&mut self, slots: &[Slot], others: &mut [Content])
        requires differ { Differ slots.now }
        requires suit { AllSuit self.old.plan.values slots.now others.old }
        ensures after { self.new ≡ with_contents slots.now (map content others.old) self.old }
        ensures handed { map content others.new ≡ map (held self.old) slots.now }
        ensures suit { AllSuit self.old.plan.values slots.now others.new }
    {
        for (number, slot) in slots.iter().enumerate() {
            self.exchange_content(slot, &mut others[number]);
        }
    }

    /// What a source gives, copied.
    fn taken(&self, alloc: Global, source: &Source) -> Result<Content, NoMemory>
        requires { IsSource self.now.plan.values source.now }
        ensures content { IfOk result (λ c. content c ≡ given self.now source.now) }
        ensures cells { IfOk result (λ c. cells c ≡ cells_from source.now) }
    {
        match source {
            Source::Register(slot) => self.content(alloc, slot),
            Source::Value(part) => Ok(Content {
                row: Row::of_part(alloc, part)?,
                has: true,
            }),
        }
    }

    /// What sources give, copied.
    fn all_taken(&self, alloc: Global, sources: &[Source]) -> Result<Vec<Content>, NoMemory>
        requires { AllByRecursion (IsSource self.now.plan.values) sources.now }
        ensures contents { IfOk result (λ cs. map content cs.items ≡ map (given self.now) sources.now) }
        ensures cells { IfOk result (λ cs. map cells cs.items ≡ map cells_from sources.now) }
    {
        let mut contents = Vec::with_capacity(alloc, sources.len())?;
        for source in sources {
            contents.push(self.taken(alloc, source)?)?;
        }
        Ok(contents)
    }

    /// Sets the registers of phis all at once: each takes what its source gave before, and what they held is handed back.
    /// `put_back_phis` undoes it. Where memory runs out nothing changes.
    pub fn phis(
        &mut self,
        alloc: Global,
        slots: &[Slot],
        sources: &[Source],
    ) -> Result<Vec<Content>, NoMemory>
        requires differ { Differ slots.now }
        requires phis { AllZip (IsPhi self.old.plan.values) slots.now sources.now }
        ensures ok { OnOk result (self.new ≡ with_phis slots.now sources.now self.old) }
        ensures handed { IfOk result (λ olds. map content olds.items ≡ map (held self.old) slots.now) }
        ensures suit { IfOk result (λ olds. AllSuit self.old.plan.values slots.now olds.items) }
        ensures err { OnErr result (self.new ≡ self.old) }
    {
        let mut contents = self.all_taken(alloc, sources)?;
        self.exchange_all(slots, contents.as_mut_slice());
        Ok(contents)
    }

    /// Puts back what the registers of phis held. It takes no memory.
    pub fn put_back_phis(&mut self, slots: &[Slot], mut olds: Vec<Content>)
        requires differ { Differ slots.now }
        requires suit { AllSuit self.old.plan.values slots.now olds.items }
        ensures { self.new ≡ with_contents slots.now (map content olds.items) self.old }
    {
        self.exchange_all(slots, olds.as_mut_slice());
    }
}

/// So many marks of registers without a value.
fn no_marks(alloc: Global, count: usize) -> Result<Vec<bool>, NoMemory>
    ensures { IfOk result (λ marks. marks.items ≡ replicate count false) }
{
    let mut marks = Vec::with_capacity(alloc, count)?;
    for _number in 0..count {
        marks.push(false)?;
    }
    Ok(marks)
}

/// So many places of registers without a pointer.
fn no_pointers(alloc: Global, count: usize) -> Result<Vec<Option<Pointer>>, NoMemory>
    ensures { IfOk result (λ places. places.items ≡ replicate count None) }
{
    let mut places = Vec::with_capacity(alloc, count)?;
    for _number in 0..count {
        places.push(None)?;
    }
    Ok(places)
}

/// Equal pointers, and none where there is none.
fn pointers_copied(
    alloc: Global,
    pointers: &[Option<Pointer>],
) -> Result<Vec<Option<Pointer>>, NoMemory>
    ensures { IfOk result (λ copies. copies.items ≡ pointers.now) }
{
    let mut copies = Vec::with_capacity(alloc, pointers.len())?;
    for pointer in pointers {
        copies.push(pointer_copied(alloc, pointer)?)?;
    }
    Ok(copies)
}

/// An equal pointer, and none where there is none.
fn pointer_copied(alloc: Global, pointer: &Option<Pointer>) -> Result<Option<Pointer>, NoMemory>
    ensures { IfOk result (λ copy. copy ≡ pointer.now) }
{
    match pointer {
        Some(pointer) => Ok(Some(pointer.copy(alloc)?)),
        None => Ok(None),
    }
}

/// Equal events.
fn events_copied(alloc: Global, events: &[DebugEvent]) -> Result<Vec<DebugEvent>, NoMemory>
    ensures { IfOk result (λ copies. copies.items ≡ events.now) }
{
    let mut copies = Vec::with_capacity(alloc, events.len())?;
    for event in events {
        copies.push(event.copy(alloc)?)?;
    }
    Ok(copies)
}
