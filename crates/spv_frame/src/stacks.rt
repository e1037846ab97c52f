//! Stacks: the calls of an invocation, by depth.
ghost use Rattle.std.specs.Prelude.{◌≡◌, ◌≢◌, ◌<◌, ◌++◌, [], ◌∷◌, IfOk, OnOk, OnErr, Some, length, map, slice_get, option_copied, option_map, MatchOption, None};
ghost use Rattle.std.specs.List.{AllZip};
ghost use Rattle.std.specs.Option.{IsSomeAnd};
ghost use Rattle.spv_base.specs.Entries.{reads};
ghost use Rattle.spv_frame.specs.Calls.{AreArguments, entered};
ghost use Rattle.spv_frame.specs.Contents.{AllSuit, Differ, content, held, with_contents};
ghost use Rattle.spv_frame.specs.Frames.{with_pointer_under, with_value_under};
ghost use Rattle.spv_frame.specs.Phis.{IsPhi, with_phis};
ghost use Rattle.spv_frame.specs.Registers.{IsPointerSlotOf, IsSlotOf, marked};
ghost use Rattle.spv_frame.specs.Stacks.{Stacked, on_top, top};
ghost use Rattle.spv_types.specs.Rows.{leaves};
ghost use Rattle.spv_frame.specs.Numbers.{HasCells, HasPointer, HoldsPointer, HoldsValue, with_pointer, with_value};

use crate::contents::{Argument, Content, Source};
use crate::events::DebugEvent;
use crate::frames::Frame;
use crate::plans::Plan;
use crate::slots::{PointerSlot, Slot};
use spv_base::{NoMemory, Pointer};
use spv_values::{Row, Single};
use std::alloc::Global;
use std::marker::Model;
use std::rc::Rc;

/// The calls of an invocation. Contracts see their frames by depth, and how many there is room for.
#[derive(Drop)]
pub struct Stack {
    pub(crate) frames: Vec<Frame>,
    room: u32,
}

impl Model for Stack {
    ghost use Rattle.std.specs.Prelude.{◌≤◌, vec_capacity};
    ghost use Rattle.std.specs.Coded.{codes};
    ghost use Rattle.spv_base.specs.contracts.values.Value as value;
    ghost use Rattle.spv_frame.specs.Stacks.{Stacked};

    ghost Value = { Stacked };

    ghost coded = { Prim.hlevel (codes, value.the_row.coded) };

    ghost view = { λ s. record { frames = s.frames.items; room = s.room } };

    ghost invariant = { λ s. s.room ≤ vec_capacity s.frames };
}

impl Stack {
    /// No frames, with room for so many.
    pub fn new(alloc: Global, room: u32) -> Result<Stack, NoMemory>
        ensures { IfOk result (λ stack. stack ≡ record { frames = []; room = room }) }
    {
        Ok(Stack {
            frames: Vec::with_capacity(alloc, room as usize)?,
            room,
        })
    }

    /// Equal frames, with room for as many.
    pub fn copy(&self, alloc: Global) -> Result<Stack, NoMemory>
        ensures { IfOk result (λ stack. stack ≡ self.now) }
    {
        copied(alloc, self.frames.as_slice(), self.room)
    }

    /// Makes the frame of a function the top one, as a call begins it. Where memory runs out nothing changes. `leave` undoes it.
    pub fn enter(
        &mut self,
        alloc: Global,
        plan: &Rc<Plan>,
        arguments: &[Argument],
    ) -> Result<(), NoMemory>
        requires { AreArguments plan.now.value arguments.now }
        ensures ok { OnOk result (self.new ≡ record self.old { frames = self.old.frames ++ entered plan.now.value arguments.now ∷ [] }) }
        ensures err { OnErr result (self.new ≡ self.old) }
    {
        let frame = Frame::entered(alloc, plan, arguments)?;
        self.frames.push(frame)?;
        Ok(())
    }

    /// Makes a frame the top one, where there is room. It takes no memory, and `leave` undoes it.
    pub fn give_back(&mut self, frame: Frame)
        requires { length self.old.frames < self.old.room }
        ensures { self.new ≡ record self.old { frames = self.old.frames ++ frame ∷ [] } }
    {
        self.frames.push_reserved(frame);
    }

    /// Takes the top frame away, if there is one. `give_back` undoes it.
    pub fn leave(&mut self) -> Option<Frame>
        ensures room { self.new.room ≡ self.old.room }
        ensures frames { MatchOption result ((self.old.frames ≡ []) × (self.new.frames ≡ [])) (λ f. self.old.frames ≡ self.new.frames ++ f ∷ []) }
    {
        self.frames.pop()
    }

    /// How many frames there are.
    pub fn depth(&self) -> usize
        ensures { result ≡ length self.now.frames }
    {
        self.frames.len()
    }

    /// The frame of a depth, if there is one; the entry point's has depth 0.
    pub fn frame(&self, depth: u32) -> Option<&Frame>
        ensures { option_copied result ≡ slice_get self.now.frames depth }
    {
        self.frames.get(depth as usize)
    }

    /// The word number of the top frame's next instruction, if there is a frame.
    pub fn pc(&self) -> Option<u32>
        ensures { result ≡ option_map (λ f. f.pc) (top self.now.frames) }
    {
        match self.frames.last() {
            Some(frame) => Some(frame.pc()),
            None => None,
        }
    }

    /// Exchanges the value of a register of the top frame and its mark. It takes no memory, and the same call undoes it.
    pub fn exchange(&mut self, slot: &Slot, value: &mut Row, has: &mut bool)
        requires slot { IsSomeAnd (top self.old.frames) (λ f. IsSlotOf f.plan.values slot.now) }
        requires room { length (leaves value.old) ≡ slot.now.len }
        ensures after { self.new ≡ record self.old { frames = on_top (with_value_under slot.now.id (marked value.old has.old)) self.old.frames } }
        ensures handed { IsSomeAnd (top self.old.frames) (λ f. reads slot.now.id f.values ≡ Some (marked value.new has.new)) }
        ensures room { length (leaves value.new) ≡ slot.now.len }
    {
        let top = self.frames.len() - 1;
        self.frames[top].exchange(slot, value, has);
    }

    /// Exchanges the pointer of a register of the top frame. It takes no memory, and the same call undoes it.
    pub fn exchange_pointer(&mut self, slot: PointerSlot, pointer: &mut Option<Pointer>)
        requires { IsSomeAnd (top self.old.frames) (λ f. IsPointerSlotOf f.plan.pointers slot) }
        ensures after { self.new ≡ record self.old { frames = on_top (with_pointer_under slot.id pointer.old) self.old.frames } }
        ensures handed { IsSomeAnd (top self.old.frames) (λ f. reads slot.id f.pointers ≡ Some pointer.new) }
    {
        let top = self.frames.len() - 1;
        self.frames[top].exchange_pointer(slot, pointer);
    }

    /// Sets the registers of phis in the top frame all at once: each takes what its source gave before, and what they held is handed
    /// back. `put_back_phis` undoes it. Where memory runs out nothing changes.
    pub fn phis(
        &mut self,
        alloc: Global,
        slots: &[Slot],
        sources: &[Source],
    ) -> Result<Vec<Content>, NoMemory>
        requires differ { Differ slots.now }
        requires phis { IsSomeAnd (top self.old.frames) (λ f. AllZip (IsPhi f.plan.values) slots.now sources.now) }
        ensures ok { OnOk result (self.new ≡ record self.old { frames = on_top (with_phis slots.now sources.now) self.old.frames }) }
        ensures handed { IfOk result (λ olds. IsSomeAnd (top self.old.frames) (λ f. map content olds.items ≡ map (held f) slots.now)) }
        ensures suit { IfOk result (λ olds. IsSomeAnd (top self.old.frames) (λ f. AllSuit f.plan.values slots.now olds.items)) }
        ensures err { OnErr result (self.new ≡ self.old) }
    {
        let top = self.frames.len() - 1;
        self.frames[top].phis(alloc, slots, sources)
    }

    /// Puts back what the registers of phis held in the top frame. It takes no memory.
    pub fn put_back_phis(&mut self, slots: &[Slot], olds: Vec<Content>)
        requires differ { Differ slots.now }
        requires suit { IsSomeAnd (top self.old.frames) (λ f. AllSuit f.plan.values slots.now olds.items) }
        ensures { self.new ≡ record self.old { frames = on_top (with_contents slots.now (map content olds.items)) self.old.frames } }
    {
        let top = self.frames.len() - 1;
        self.frames[top].put_back_phis(slots, olds);
    }

    /// Goes to an instruction in the top frame, and gives the word number of the one before.
    pub fn set_pc(&mut self, pc: u32) -> u32
        requires { self.old.frames ≢ [] }
        ensures after { self.new ≡ record self.old { frames = on_top (λ f. record f { pc = pc }) self.old.frames } }
        ensures handed { option_map (λ f. f.pc) (top self.old.frames) ≡ Some result }
    {
        let top = self.frames.len() - 1;
        self.frames[top].set_pc(pc)
    }

    /// Appends a debug event to those that the top frame passed.
    pub fn append(&mut self, event: DebugEvent) -> Result<(), NoMemory>
        requires { self.old.frames ≢ [] }
        ensures ok { OnOk result (self.new ≡ record self.old { frames = on_top (λ f. record f { events = f.events ++ event ∷ [] }) self.old.frames }) }
        ensures err { OnErr result (self.new ≡ self.old) }
    {
        let top = self.frames.len() - 1;
        self.frames[top].append(event)
    }

    /// Appends debug events to those that the top frame passed, all or none.
    pub fn append_all(&mut self, events: Vec<DebugEvent>) -> Result<(), NoMemory>
        requires { self.old.frames ≢ [] }
        ensures ok { OnOk result (self.new ≡ record self.old { frames = on_top (λ f. record f { events = f.events ++ events.items }) self.old.frames }) }
        ensures err { OnErr result (self.new ≡ self.old) }
    {
        let top = self.frames.len() - 1;
        self.frames[top].append_all(events)
    }

    /// Takes the last debug event of the top frame away, and gives it. It takes no memory, and undoes `append`.
    pub fn drop_event(&mut self) -> DebugEvent
        requires { IsSomeAnd (top self.old.frames) (λ f. f.events ≢ []) }
        ensures { self.old ≡ record self.new { frames = on_top (λ f. record f { events = f.events ++ result ∷ [] }) self.new.frames } }
    {
        let top = self.frames.len() - 1;
        self.frames[top].drop_event()
    }

    /// Exchanges the value of the register with a number of the top frame, which has one cell, and its mark.
    pub fn exchange_single(&mut self, number: usize, value: &mut Single, has: &mut bool)
        requires { IsSomeAnd (top self.old.frames) (HasCells number 1) }
        ensures after { self.new ≡ record self.old { frames = on_top (with_value number (marked value.old has.old)) self.old.frames } }
        ensures handed { IsSomeAnd (top self.old.frames) (HoldsValue number (marked value.new has.new)) }
    {
        let top = self.frames.len() - 1;
        self.frames[top].exchange_single(number, value, has);
    }

    /// Exchanges the value of the register with a number of the top frame and its mark.
    pub fn exchange_numbered(&mut self, number: usize, value: &mut Row, has: &mut bool)
        requires { IsSomeAnd (top self.old.frames) (HasCells number (length (leaves value.old))) }
        ensures after { self.new ≡ record self.old { frames = on_top (with_value number (marked value.old has.old)) self.old.frames } }
        ensures handed { IsSomeAnd (top self.old.frames) (HoldsValue number (marked value.new has.new)) }
    {
        let top = self.frames.len() - 1;
        self.frames[top].exchange_numbered(number, value, has);
    }

    /// Takes the value of the register with a number of the top frame away.
    pub fn clear_numbered(&mut self, number: usize)
        requires { IsSomeAnd (top self.old.frames) (λ f. number < length f.plan.values) }
        ensures { self.new ≡ record self.old { frames = on_top (with_value number None) self.old.frames } }
    {
        let top = self.frames.len() - 1;
        self.frames[top].clear_numbered(number);
    }

    /// Exchanges the pointer of the register with a number of the top frame.
    pub fn exchange_numbered_pointer(&mut self, number: usize, pointer: &mut Option<Pointer>)
        requires { IsSomeAnd (top self.old.frames) (HasPointer number) }
        ensures after { self.new ≡ record self.old { frames = on_top (with_pointer number pointer.old) self.old.frames } }
        ensures handed { IsSomeAnd (top self.old.frames) (HoldsPointer number pointer.new) }
    {
        let top = self.frames.len() - 1;
        self.frames[top].exchange_numbered_pointer(number, pointer);
    }
}

/// Copies of frames, with room for so many.
fn copied(alloc: Global, frames: &[Frame], room: u32) -> Result<Stack, NoMemory>
    ensures { IfOk result (λ stack. stack ≡ record { frames = frames.now; room = room }) }
{
    let mut copies = Vec::with_capacity(alloc, room as usize)?;
    for frame in frames {
        copies.push(frame.copy(alloc)?)?;
    }
    Ok(Stack {
        frames: copies,
        room,
    })
}
