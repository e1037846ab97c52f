//! A state whose changes are recorded, event by event.
ghost use Rattle.std.specs.Prelude.{◌≡◌, ◌≤◌, ◌∷◌, [], IfOk, IfSome, IsSome, None, OnErr, OnOk, option_map, ◌<◌, ◌+◌, ℕ, Some, length, slice_get, true};
ghost use Rattle.std.specs.List.{list_all};
ghost use Rattle.std.specs.Option.{MatchOption, IsSomeAnd};
ghost use Rattle.spv_journal.specs.Events.{newest, opened, size};
ghost use Rattle.spv_journal.specs.Held.{marked, past_of, sealed, unwound, IsMaking, Records, KeepsEvent};
ghost use Rattle.spv_journal.specs.Touches.{IsTouch};
ghost use Rattle.spv_journal.specs.Undo.{before};
ghost use Rattle.spv_base.specs.declared.values.Value.{Ptr, out-Value};
ghost use Rattle.spv_frame.specs.Stacks.{Stacked};
ghost use Rattle.spv_index.specs.Definitions.{result_type};
ghost use Rattle.spv_mem.specs.Memory.{AreVariables, HasRoom, MayStore, load_of};
ghost use Rattle.spv_mem.specs.Singles.{NamesRow};
ghost use Rattle.spv_plans.specs.Plans.{plans_in};
ghost use Rattle.spv_state.specs.Rooms.{HasLocals};
ghost use Rattle.spv_state.specs.Sound.{IsSoundFrame};
ghost use Rattle.spv_state.specs.State as state;
ghost use Rattle.spv_statuses.specs.Invocations.{IsWithin, waits_or_finished};
ghost use Rattle.spv_types.specs.Rows.{leaves, no_roots};
ghost use Rattle.spv_types.specs.Shapes.{HasShape, pointer_in};
ghost use Rattle.spv_frame.specs.Registers.{IsSlotOf};
ghost use Rattle.spv_state.specs.Sources.{slot_of};

use crate::changes::{exchange_leaf, named_leaf, put_pointer};
use crate::journal::Journal;
use crate::marks::Mark;
use crate::noting::{keep_frame, keep_held, keep_part, pointer_entry};
use crate::touches::Touch;
use spv_base::{Happening, NoMemory, Pointer, Root};
use spv_frame::{DebugEvent, Frame};
use spv_mem::Locals;
use spv_state::{CellSlot, Whole};
use spv_statuses::Status;
use spv_undo::Entry;
use spv_undo::entries::OldFrame;
use spv_undo::undoing::exchange_variable;
use spv_valid::Module;
use spv_values::trees::shadow;
use spv_values::{Row, Single};
use std::alloc::Global;
use std::marker::Model;

/// A state, and a journal of the events that led to it. Contracts see the state beside what the journal keeps. Each event of the
/// journal can be undone, one after the other.
pub struct Recorded {
    pub(crate) alloc: Global,
    pub(crate) whole: Whole,
    pub(crate) journal: Journal,
}

// Written out, so that it is proved once: a derived drop is proved again in each function that lets go of such a value.
impl Drop for Recorded {
    fn drop(self) {
        let Recorded {
            alloc: _,
            whole,
            journal,
        } = self;
        drop(whole);
        drop(journal);
    }
}

impl Model for Recorded {
    ghost use Rattle.std.specs.Prelude.{◌≤◌};
    ghost use Rattle.std.specs.Coded.{codes};
    ghost use Rattle.spv_base.specs.contracts.values.Value as value;
    ghost use Rattle.spv_undo.specs.contracts.entries.Entry as entry;
    ghost use Rattle.spv_journal.specs.Events.{opened, size};
    ghost use Rattle.spv_journal.specs.Held.{Held};
    ghost use Rattle.spv_journal.specs.Undo.{CanUnwind};

    ghost Value = { Held };

    ghost coded = { Prim.hlevel (codes, value.the_row.coded, entry.the_row.coded) };

    ghost view = { λ r. record { state = r.whole; ring = r.journal.ring; gathered = r.journal.gathered; limit = r.journal.limit } };

    ghost invariant = { λ r. CanUnwind (opened r.journal.gathered r.journal.ring) r.whole };
}

impl Recorded {
    /// A state, and no events, with room for so many marks and entries. There is no memory for 4,294,967,296 and more.
    pub fn new(alloc: Global, whole: Whole, limit: usize) -> Result<Recorded, NoMemory>
        requires { 1 ≤ limit }
        ensures { IfOk result (λ r. r ≡ record { state = whole; ring = []; gathered = None; limit = limit }) }
    {
        Ok(Recorded {
            alloc,
            whole,
            journal: Journal::new(alloc, limit)?,
        })
    }

    /// An equal state, and no events, with room for so many marks and entries, as `new` has it.
    pub fn copy(&self, alloc: Global, limit: usize) -> Result<Recorded, NoMemory>
        requires { 1 ≤ limit }
        ensures { IfOk result (λ r. r ≡ record { state = self.now.state; ring = []; gathered = None; limit = limit }) }
    {
        Recorded::new(alloc, self.whole.copy(alloc)?, limit)
    }

    /// The state.
    pub fn whole(&self) -> &Whole
        ensures { result.now ≡ self.now.state }
    {
        &self.whole
    }

    /// The events.
    pub fn journal(&self) -> &Journal
        ensures events { result.now ≡ record { ring = self.now.ring; gathered = self.now.gathered; limit = self.now.limit } }
        ensures within { size self.now.ring ≤ self.now.limit }
        ensures some { 1 ≤ self.now.limit }
    {
        let _len = self.journal.len();
        &self.journal
    }

    /// Begins an event. Where memory runs out nothing changes.
    pub fn mark(&mut self, happening: Happening) -> Result<(), NoMemory>
        requires { self.old.gathered ≡ None }
        ensures ok { OnOk result (self.new ≡ marked happening self.old) }
        ensures err { OnErr result (self.new ≡ self.old) }
    {
        self.journal.mark(happening)
    }

    /// The event that is being made is whole: it is kept, and as many of the oldest go as have to. It takes no memory.
    #[inline(always)]
    pub fn seal(&mut self)
        requires { IsSome self.old.gathered }
        ensures { self.new ≡ sealed self.old }
    {
        self.journal.seal();
    }

    /// Undoes the event that is being made, or else the newest. None exactly where there is none; then nothing changes. It takes no
    /// memory.
    pub fn unwind(&mut self) -> Option<Happening>
        ensures after { self.new ≡ unwound self.old }
        ensures happening { result ≡ option_map (λ v. v.happening) (newest (opened self.old.gathered self.old.ring)) }
        ensures undone { MatchOption result ((opened self.old.gathered self.old.ring ≡ []) × (self.new ≡ self.old))
            (λ h. past_of self.old ≡ record { happening = h; state = self.new.state } ∷ past_of self.new) }
    {
        self.journal.unwind(&mut self.whole)
    }

    /// What the newest event did, told without undoing it; none where no event is kept, and where its changes are of another form. Inlined:
    /// it is called once an event.
    #[inline(always)]
    pub fn touch(&self) -> Option<Touch>
        requires { self.now.gathered ≡ None }
        ensures { IfSome result (λ t. IsSomeAnd (newest self.now.ring) (λ v. IsTouch t v.happening.inv (before v self.now.state) self.now.state)) }
    {
        self.journal.touch()
    }

    /// Puts a value where a pointer of an invocation leads; the old one is in the row then.
    pub fn store(&mut self, i: u32, pointer: &Pointer, row: &mut Row) -> Result<(), NoMemory>
        requires making { IsMaking self.old.gathered i }
        requires there { IsSome (load_of self.old.state.memory i pointer.now) }
        requires may { ∥ MayStore self.old.state.memory i pointer.now row.old ∥₁ }
        ensures ok { OnOk result (self.new.state ≡ state.put_store i (Some (pointer.now, row.old)) self.old.state) }
        ensures handed { OnOk result (load_of self.old.state.memory i pointer.now ≡ Some row.new) }
        ensures recorded { Records (1 + length (leaves row.old)) self.old self.new }
        ensures err { OnErr result ((self.new ≡ self.old) × (row.new ≡ row.old)) }
    {
        match named_leaf(&self.whole, i, pointer, row) {
            Some(leaf) => self.store_leaf(i, pointer, leaf, row),
            None => self.store_part(i, pointer, row),
        }
    }

    /// Puts a value of one cell where a pointer of an invocation leads to a leaf, which lies behind so many others; the old one is in the
    /// row then. The number saves a second look-up.
    fn store_leaf(
        &mut self,
        i: u32,
        pointer: &Pointer,
        leaf: u32,
        row: &mut Row,
    ) -> Result<(), NoMemory>
        requires making { IsMaking self.old.gathered i }
        requires there { IsSome (load_of self.old.state.memory i pointer.now) }
        requires may { ∥ MayStore self.old.state.memory i pointer.now row.old ∥₁ }
        requires one { length (leaves row.old) ≡ 1 }
        requires names { ∥ NamesRow self.old.state.memory i pointer.now leaf 1 ∥₁ }
        ensures ok { OnOk result (self.new.state ≡ state.put_store i (Some (pointer.now, row.old)) self.old.state) }
        ensures handed { OnOk result (load_of self.old.state.memory i pointer.now ≡ Some row.new) }
        ensures recorded { Records (1 + length (leaves row.old)) self.old self.new }
        ensures err { OnErr result ((self.new ≡ self.old) × (row.new ≡ row.old)) }
    {
        self.whole.memory().keeps_types();
        exchange_leaf(&mut self.whole, i, pointer, leaf, row);
        let entry = Entry::Leaf {
            root: pointer.root,
            leaf,
            path: shadow(&pointer.path),
            value: Single::of_part(&row.as_part()),
        };
        match self.journal.add(entry) {
            Ok(()) => Ok(()),
            Err(error) => {
                exchange_leaf(&mut self.whole, i, pointer, leaf, row);
                Err(error)
            }
        }
    }

    /// Puts a value of any number of cells where a pointer of an invocation leads; the old one is in the row then.
    fn store_part(&mut self, i: u32, pointer: &Pointer, row: &mut Row) -> Result<(), NoMemory>
        requires making { IsMaking self.old.gathered i }
        requires there { IsSome (load_of self.old.state.memory i pointer.now) }
        requires may { ∥ MayStore self.old.state.memory i pointer.now row.old ∥₁ }
        ensures ok { OnOk result (self.new.state ≡ state.put_store i (Some (pointer.now, row.old)) self.old.state) }
        ensures handed { OnOk result (load_of self.old.state.memory i pointer.now ≡ Some row.new) }
        ensures recorded { Records (1 + length (leaves row.old)) self.old self.new }
        ensures err { OnErr result ((self.new ≡ self.old) × (row.new ≡ row.old)) }
    {
        self.whole.memory().keeps_types();
        self.whole.store(i, pointer, row);
        match keep_part(self.alloc, &mut self.journal, &self.whole, i, pointer, row) {
            Ok(()) => Ok(()),
            Err(error) => {
                self.whole.store(i, pointer, row);
                Err(error)
            }
        }
    }

    /// Puts a value in the register with an id of the top frame of an invocation, if the frame has it; the old one is in the row then.
    pub fn set_value(
        &mut self,
        accepted: &Module,
        i: u32,
        id: u32,
        row: &mut Row,
    ) -> Result<(), NoMemory>
        requires making { IsMaking self.old.gathered i }
        requires inv { i < length self.old.state.stacks }
        requires plans { self.old.state.plans ≡ plans_in accepted.now }
        requires frame { IsSomeAnd (state.top_of self.old.state i) (IsSoundFrame accepted.now) }
        requires plain { pointer_in (out-Value row.old) ≡ None }
        requires value { (ty : ℕ) → result_type accepted.now.insts id ≡ Some ty → HasShape accepted.now.types no_roots ty row.old }
        ensures ok { OnOk result (self.new.state ≡ state.on_frame i (state.with_register id row.old) self.old.state) }
        ensures recorded { Records 1 self.old self.new }
        ensures err { OnErr result ((self.new ≡ self.old) × (row.new ≡ row.old)) }
    {
        let mut has = true;
        match self.whole.exchange_register(accepted, i, id, row, &mut has) {
            Some(number) => match keep_held(self.alloc, &mut self.journal, number, row, has) {
                Ok(()) => Ok(()),
                Err(error) => {
                    self.whole.exchange_value(i, number, row, &mut has);
                    Err(error)
                }
            },
            None => Ok(()),
        }
    }

    /// Puts a pointer in the register with an id of the top frame of an invocation, if the frame has it.
    pub fn set_pointer(
        &mut self,
        accepted: &Module,
        i: u32,
        id: u32,
        pointer: Pointer,
    ) -> Result<(), NoMemory>
        requires making { IsMaking self.old.gathered i }
        requires inv { i < length self.old.state.stacks }
        requires plans { self.old.state.plans ≡ plans_in accepted.now }
        requires frame { IsSomeAnd (state.top_of self.old.state i) (IsSoundFrame accepted.now) }
        ensures ok { OnOk result (self.new.state ≡ state.on_frame i (state.with_register id (Ptr pointer)) self.old.state) }
        ensures recorded { Records 1 self.old self.new }
        ensures err { OnErr result (self.new ≡ self.old) }
    {
        match self.whole.held_pointer(accepted, i, id) {
            Some(held) => {
                let number = held.number;
                let entry = pointer_entry(self.alloc, &held)?;
                self.journal.add(entry)?;
                put_pointer(&mut self.whole, i, number, pointer);
                Ok(())
            }
            None => Ok(()),
        }
    }

    /// Moves the top frame of an invocation to an instruction. Inlined: it is called at each event that is not made at once.
    #[inline(always)]
    pub fn set_pc(&mut self, i: u32, pc: u32) -> Result<(), NoMemory>
        requires making { IsMaking self.old.gathered i }
        requires inside { i < length self.old.state.stacks }
        requires frames { IsSome (state.top_of self.old.state i) }
        ensures ok { OnOk result (self.new.state ≡ state.on_frame i (state.with_pc pc) self.old.state) }
        ensures recorded { Records 1 self.old self.new }
        ensures err { OnErr result (self.new ≡ self.old) }
    {
        let old = self.whole.set_pc(i, pc);
        match self.journal.move_pc(old) {
            Ok(()) => Ok(()),
            Err(error) => {
                self.whole.set_pc(i, old);
                Err(error)
            }
        }
    }

    /// Gives an invocation another status.
    pub fn set_status(&mut self, i: u32, status: Status) -> Result<(), NoMemory>
        requires making { IsMaking self.old.gathered i }
        requires inside { i < length self.old.state.statuses.list }
        requires within { IsWithin self.old.state.statuses.words status }
        ensures ok { OnOk result (self.new.state ≡ state.set_status i status self.old.state) }
        ensures recorded { Records 1 self.old self.new }
        ensures err { OnErr result (self.new ≡ self.old) }
    {
        let old = self.whole.set_status(i, status);
        match self.journal.change_status(old) {
            Ok(()) => Ok(()),
            Err(error) => {
                self.whole.set_status(i, old);
                Err(error)
            }
        }
    }

    /// Makes a frame with its variables the top one of an invocation, where there is room for them.
    pub fn enter(&mut self, i: u32, frame: Frame, locals: Locals) -> Result<(), NoMemory>
        requires making { IsMaking self.old.gathered i }
        requires stacks { i < length self.old.state.stacks }
        requires room { (k : Stacked) → slice_get self.old.state.stacks i ≡ Some k → length k.frames < k.room }
        requires levels { i < length self.old.state.memory.locals }
        requires level { HasRoom self.old.state.memory i }
        requires variables { ∥ AreVariables self.old.state.memory.types self.old.state.memory.targets locals ∥₁ }
        ensures ok { OnOk result (self.new.state ≡ state.push_frame i frame locals self.old.state) }
        ensures recorded { Records 1 self.old self.new }
        ensures err { OnErr result (self.new ≡ self.old) }
    {
        self.journal.add(Entry::FramePushed)?;
        self.whole.enter(i, frame, locals);
        Ok(())
    }

    /// Drops the top frame of an invocation, with its variables.
    pub fn leave(&mut self, i: u32) -> Result<(), NoMemory>
        requires making { IsMaking self.old.gathered i }
        requires stacks { i < length self.old.state.stacks }
        requires locals { i < length self.old.state.memory.locals }
        requires frames { IsSome (state.top_of self.old.state i) }
        requires variables { HasLocals self.old.state i }
        ensures ok { OnOk result (self.new.state ≡ state.pop_frame i self.old.state) }
        ensures recorded { Records 1 self.old self.new }
        ensures err { OnErr result (self.new ≡ self.old) }
    {
        let _stack = self.whole.stack(i);
        let (frame, locals) = self.whole.take_frame(i);
        match keep_frame(self.alloc, &mut self.journal, OldFrame { frame, locals }) {
            Ok(()) => Ok(()),
            Err(left) => {
                self.whole.enter(i, left.frame, left.locals);
                Err(NoMemory)
            }
        }
    }

    /// Opens the barrier at a word, at which all invocations wait that aren't finished: each of these has passed it then.
    pub fn open_barrier(&mut self, word: u32) -> Result<(), NoMemory>
        requires making { IsSome self.old.gathered }
        requires waiting { list_all (waits_or_finished word) self.old.state.statuses.list ≡ true }
        requires within { word < self.old.state.statuses.words }
        ensures ok { OnOk result (self.new.state ≡ state.open_barrier self.old.state) }
        ensures recorded { Records 1 self.old self.new }
        ensures err { OnErr result (self.new ≡ self.old) }
    {
        self.journal.add(Entry::BarrierOpened(word))?;
        self.whole.open_barrier(word);
        Ok(())
    }

    /// Appends a debug event to those that the top frame of an invocation passed.
    pub fn append(&mut self, i: u32, event: DebugEvent) -> Result<(), NoMemory>
        requires making { IsMaking self.old.gathered i }
        requires inside { i < length self.old.state.stacks }
        requires frames { IsSome (state.top_of self.old.state i) }
        ensures ok { OnOk result (self.new.state ≡ state.on_frame i (state.append_event event) self.old.state) }
        ensures recorded { Records 1 self.old self.new }
        ensures err { OnErr result (self.new ≡ self.old) }
    {
        self.whole.append(i, event)?;
        match self.journal.add(Entry::EventAppended) {
            Ok(()) => Ok(()),
            Err(error) => {
                self.whole.drop_event(i);
                Err(error)
            }
        }
    }

    /// The event of an invocation that puts a value of one cell in a whole variable of one cell, and moves the top frame from the word of
    /// what happens. Nothing of the variable's type is looked up. Inlined: it is called once an event.
    #[inline(always)]
    pub fn store_cell(&mut self, happening: Happening, root: Root, mut value: Single, pc: u32)
        requires none { self.old.gathered ≡ None }
        requires inside { happening.inv < length self.old.state.stacks }
        requires stands { IsSomeAnd (state.top_of self.old.state happening.inv) (λ f. f.pc ≡ happening.word) }
        requires one { IsSomeAnd (load_of self.old.state.memory happening.inv (record { root = root; path = [] })) (λ v. length (leaves v) ≡ 1) }
        requires may { ∥ MayStore self.old.state.memory happening.inv (record { root = root; path = [] }) value ∥₁ }
        ensures state { self.new.state ≡ state.on_frame happening.inv (state.with_pc pc) (state.put_store happening.inv (Some (record { root = root; path = [] }, value)) self.old.state) }
        ensures kept { KeepsEvent 2 happening self.old self.new }
    {
        self.whole.memory().keeps_types();
        exchange_variable(&mut self.whole, happening.inv, root, &mut value);
        self.whole.set_pc(happening.inv, pc);
        self.journal
            .keep(Mark::of_variable(happening, root, &value));
    }

    /// The event of an invocation that puts a value of one cell in the register of its top frame that lies in a slot, and moves the frame
    /// from the word of what happens. Nothing is looked up. Inlined: it is called once an event.
    #[inline(always)]
    pub fn set_cell(&mut self, happening: Happening, slot: &CellSlot, mut value: Single, pc: u32)
        requires none { self.old.gathered ≡ None }
        requires inside { happening.inv < length self.old.state.stacks }
        requires stands { IsSomeAnd (state.top_of self.old.state happening.inv) (λ f. f.pc ≡ happening.word) }
        requires register { IsSomeAnd (state.top_of self.old.state happening.inv) (λ f. IsSlotOf f.plan.values (slot_of slot.now)) }
        requires plain { pointer_in (out-Value value) ≡ None }
        ensures state { self.new.state ≡ state.on_frame happening.inv (state.with_pc pc) (state.on_frame happening.inv (state.with_register slot.now.id value) self.old.state) }
        ensures kept { KeepsEvent 2 happening self.old self.new }
    {
        let mut has = true;
        self.whole
            .exchange_cell(happening.inv, slot.number as usize, &mut value, &mut has);
        self.whole.set_pc(happening.inv, pc);
        self.journal
            .keep(Mark::of_register(happening, slot.number, &value, has));
    }
}
