//! The state of a workgroup, how it begins, and its primitive changes. Each takes no memory and can't fail, but for the start, a
//! copy and the appending of a debug event.
ghost use Rattle.std.specs.Prelude.{◌≡◌, ◌<◌, ◌≤◌, IsSome, Some, length, slice_get, option_copied, option_map, true, [], ℕ, IfOk, OnOk, IfNone, None, ◌≢◌, OnErr};
ghost use Rattle.spv_frame.specs.Stacks.{Stacked, top};
ghost use Rattle.spv_mem.specs.Memory.{AreVariables, HasRoom, MayStore, load_of};
ghost use Rattle.spv_statuses.specs.Invocations.{IsWithin, passed_or_finished, waits_or_finished};
ghost use Rattle.spv_state.specs.Rooms.{HasLocals, IsBounded};
ghost use Rattle.spv_state.specs.State as state;
ghost use Rattle.spv_frame.specs.Registers.{Planned, ids, marked, number_of};
ghost use Rattle.spv_plans.specs.Plans.{plans_in};
ghost use Rattle.spv_state.specs.Events.{passed};
ghost use Rattle.spv_state.specs.Sound.{IsSound, IsSoundFrame};
ghost use Rattle.spv_state.specs.Start as spec;
ghost use Rattle.std.specs.Option.{IsSomeAnd, MatchOption};
ghost use Rattle.spv_frame.specs.Numbers.{with_value, HasCells, HasPointer, HoldsPointer, HoldsValue, with_pointer};
ghost use Rattle.spv_index.specs.Definitions.{result_type};
ghost use Rattle.spv_state.specs.Slots.{IsExchanged, IsHeldPointer};
ghost use Rattle.spv_types.specs.Rows.{no_roots, leaves};
ghost use Rattle.spv_types.specs.Shapes.{HasShape};
ghost use Rattle.std.specs.List.{list_all};
ghost use Rattle.spv_mem.specs.Singles.{NamesRow};

use crate::held::{HeldPointer, held_pointer_in};
use crate::registers::exchange_in;
use crate::runnable::Runnable;
use crate::start::{most_cells_of, whole};
use crate::undoing::{plans_copied, stacks_copied};
use spv_base::{Ghost, NoMemory, Path, Pointer, Root};
use spv_effects::{reserved, resize};
use spv_frame::{DebugEvent, Frame, Plans, Stack};
use spv_mem::{Locals, Memory};
use spv_plans::laws::functions_have_their_plans;
use spv_statuses::{Status, Statuses};
use spv_valid::Module;
use spv_values::{Row, Single};
use std::alloc::Global;
use std::marker::Model;

/// The state of a workgroup: the plans of the module's functions, its memory, and per invocation the calls that it is in and a status.
pub struct Whole {
    pub(crate) plans: Plans,
    pub(crate) memory: Memory,
    pub(crate) stacks: Vec<Stack>,
    pub(crate) statuses: Statuses,
}

// Written out, so that it is proved once: a derived drop is proved again in each function that lets go of such a value.
impl Drop for Whole {
    fn drop(self) {
        let Whole {
            plans,
            memory,
            stacks,
            statuses,
        } = self;
        drop(plans);
        drop(memory);
        drop(stacks);
        drop(statuses);
    }
}

impl Model for Whole {
    ghost use Rattle.std.specs.Prelude.{vec_len, ◌<◌, ◌^◌};
    ghost use Rattle.std.specs.Coded.{codes};
    ghost use Rattle.spv_base.specs.contracts.values.Value as value;
    ghost use Rattle.spv_state.specs.Rooms.{AreBounded};
    ghost use Rattle.spv_state.specs.State.{State};

    ghost Value = { State };

    ghost coded = { Prim.hlevel (codes, value.the_row.coded) };

    ghost view = { λ w. record { plans = w.plans; memory = w.memory; stacks = w.stacks.items; statuses = w.statuses } };

    ghost invariant = { λ w. (vec_len w.stacks < 2 ^ 32) × AreBounded w.stacks.items };
}

/// A frame and its variables, which are there.
fn both(frame: Option<Frame>, locals: Option<Locals>) -> (Frame, Locals)
    requires frame { IsSome frame }
    requires locals { IsSome locals }
    ensures frame { frame ≡ Some result.0 }
    ensures locals { locals ≡ Some result.1 }
{
    match (frame, locals) {
        (Some(frame), Some(locals)) => (frame, locals),
        _ => unreachable!(),
    }
}

impl Whole {
    /// The plans of the module's functions.
    pub fn plans(&self) -> &Plans
        ensures { result.now ≡ self.now.plans }
    {
        &self.plans
    }

    /// The variables.
    pub fn memory(&self) -> &Memory
        ensures { result.now ≡ self.now.memory }
    {
        &self.memory
    }

    /// How many invocations there are.
    pub fn invocations(&self) -> u32
        ensures { result ≡ length self.now.stacks }
    {
        self.stacks.len() as u32
    }

    /// How far the invocations are.
    pub fn statuses(&self) -> &Statuses
        ensures { result.now ≡ self.now.statuses }
    {
        &self.statuses
    }

    /// The calls that an invocation is in.
    pub fn stack(&self, i: u32) -> &Stack
        requires { i < length self.now.stacks }
        ensures stack { slice_get self.now.stacks i ≡ Some result.now }
        ensures frames { result.now.frames ≡ state.frames_of self.now i }
        ensures bounded { IsBounded result.now }
    {
        &self.stacks[i as usize]
    }

    /// The depth of the top frame of an invocation; the entry point's is 0.
    pub fn depth(&self, i: u32) -> u32
        requires { i < length self.now.stacks }
        ensures { result ≡ state.depth_of self.now i }
    {
        self.stack(i).depth().saturating_sub(1) as u32
    }

    /// The top frame of an invocation; none where it is finished.
    pub fn top(&self, i: u32) -> Option<&Frame>
        requires { i < length self.now.stacks }
        ensures { option_copied result ≡ state.top_of self.now i }
    {
        self.stack(i).frame(self.depth(i))
    }

    /// Puts a value where a pointer of an invocation leads; the old one is in the row then.
    pub fn store(&mut self, i: u32, pointer: &Pointer, row: &mut Row)
        requires there { IsSome (load_of self.old.memory i pointer.now) }
        requires may { ∥ MayStore self.old.memory i pointer.now row.old ∥₁ }
        ensures after { self.new ≡ state.put_store i (Some (pointer.now, row.old)) self.old }
        ensures handed { load_of self.old.memory i pointer.now ≡ Some row.new }
    {
        let _stored = self.memory.store(i, pointer, row);
    }

    /// Moves the top frame of an invocation to an instruction, and hands back where it stood.
    pub fn set_pc(&mut self, i: u32, pc: u32) -> u32
        requires inside { i < length self.old.stacks }
        requires frames { IsSome (state.top_of self.old i) }
        ensures after { self.new ≡ state.on_frame i (state.with_pc pc) self.old }
        ensures handed { option_map (λ f. f.pc) (state.top_of self.old i) ≡ Some result }
    {
        self.stacks[i as usize].set_pc(pc)
    }

    /// Gives an invocation another status, and hands back the one that it had.
    pub fn set_status(&mut self, i: u32, status: Status) -> Status
        requires inside { i < length self.old.statuses.list }
        requires within { IsWithin self.old.statuses.words status }
        ensures after { self.new ≡ state.set_status i status self.old }
        ensures handed { slice_get self.old.statuses.list i ≡ Some result }
        ensures within { IsWithin self.old.statuses.words result }
    {
        self.statuses.exchange(i, status)
    }

    /// Takes the top frame of an invocation away, with its variables, and hands both back.
    pub fn take_frame(&mut self, i: u32) -> (Frame, Locals)
        requires stacks { i < length self.old.stacks }
        requires locals { i < length self.old.memory.locals }
        requires frames { IsSome (state.top_of self.old i) }
        requires variables { HasLocals self.old i }
        ensures after { self.new ≡ state.pop_frame i self.old }
        ensures back { self.old ≡ state.push_frame i result.0 result.1 self.new }
        ensures variables { ∥ AreVariables self.old.memory.types self.old.memory.targets result.1 ∥₁ }
    {
        let frame = self.stacks[i as usize].leave();
        let locals = self.memory.leave_locals(i);
        both(frame, locals)
    }

    /// Drops the top frame of an invocation, with its variables.
    pub fn leave(&mut self, i: u32)
        requires stacks { i < length self.old.stacks }
        requires locals { i < length self.old.memory.locals }
        ensures { self.new ≡ state.pop_frame i self.old }
    {
        let _frame = self.stacks[i as usize].leave();
        let _locals = self.memory.leave_locals(i);
    }

    /// Makes a frame with its variables the top one of an invocation, where there is room for them.
    pub fn enter(&mut self, i: u32, frame: Frame, locals: Locals)
        requires stacks { i < length self.old.stacks }
        requires room { (k : Stacked) → slice_get self.old.stacks i ≡ Some k → length k.frames < k.room }
        requires levels { i < length self.old.memory.locals }
        requires level { HasRoom self.old.memory i }
        requires variables { ∥ AreVariables self.old.memory.types self.old.memory.targets locals ∥₁ }
        ensures { self.new ≡ state.push_frame i frame locals self.old }
    {
        self.stacks[i as usize].give_back(frame);
        self.memory.give_back_locals(i, locals);
    }

    /// Opens the barrier at a word, at which all invocations wait that aren't finished: each of these has passed it then.
    pub fn open_barrier(&mut self, word: u32)
        requires waiting { list_all (waits_or_finished word) self.old.statuses.list ≡ true }
        requires within { word < self.old.statuses.words }
        ensures { self.new ≡ state.open_barrier self.old }
    {
        self.statuses.open(word);
    }

    /// The state at the start of a run. It is sound.
    pub fn start(alloc: Global, m: &Runnable) -> Result<Whole, NoMemory>
        ensures start { IfOk result (λ w. w ≡ spec.start_of m.now) }
        ensures sound { IfOk result (λ w. IsSound m.now w) }
    {
        functions_have_their_plans();
        let _insts = m.accepted().insts();
        let _setup = m.setup();
        let whole = whole(alloc, m)?;
        whole.memory().keeps_types();
        Ok(whole)
    }

    /// A row with as many cells as the largest register of any function has, so that it takes each register's value without memory.
    pub fn row(&self, alloc: Global) -> Result<Row, NoMemory>
        ensures { IfOk result (λ row. (n k : ℕ) (p : Planned) (r : ℕ × ℕ) → slice_get self.now.plans n ≡ Some p → slice_get p.values k ≡ Some r → r.1 ≤ length (leaves row)) }
    {
        let most = most_cells_of(&self.plans);
        let mut row = reserved(alloc, most)?;
        resize(&mut row, most)?;
        Ok(row)
    }

    /// The function of the top frame of an invocation.
    fn function(&self, i: u32) -> u32
        requires inv { i < length self.now.stacks }
        requires frame { IsSome (state.top_of self.now i) }
        ensures { IsSomeAnd (state.top_of self.now i) (λ f. f.plan.function ≡ result) }
    {
        match self.top(i) {
            Some(frame) => frame.function(),
            None => unreachable!(),
        }
    }

    /// Exchanges the value of the register with an id of the top frame of an invocation and its mark, if the frame has this register, and
    /// gives its number in the plan. A value of the id's type has as many cells as the register, so what comes back can be put back by the
    /// number. In constant time (measured, and said by no clause).
    pub fn exchange_register(
        &mut self,
        accepted: &Module,
        i: u32,
        id: u32,
        row: &mut Row,
        has: &mut bool,
    ) -> Option<usize>
        requires inv { i < length self.old.stacks }
        requires plans { self.old.plans ≡ plans_in accepted.now }
        requires frame { IsSomeAnd (state.top_of self.old i) (IsSoundFrame accepted.now) }
        requires value { (ty : ℕ) → result_type accepted.now.insts id ≡ Some ty → HasShape accepted.now.types no_roots ty row.old }
        ensures after { MatchOption result (self.new ≡ self.old) (λ n. self.new ≡ state.on_frame i (with_value n (marked row.old has.old)) self.old) }
        ensures kept { IfNone result ((row.new ≡ row.old) × (has.new ≡ has.old)) }
        ensures register { IsSomeAnd (state.top_of self.old i) (λ f. MatchOption result (number_of id (ids f.plan.values) ≡ None) (λ n. IsExchanged id n row.old row.new has.new f)) }
    {
        let function = self.function(i);
        let stack = &mut self.stacks[i as usize];
        exchange_in(accepted, &self.plans, stack, function, id, row, has)
    }

    /// What the register with an id of the top frame of an invocation holds, if it is one of a pointer there.
    /// In constant time (measured, and said by no clause).
    pub fn held_pointer(&self, accepted: &Module, i: u32, id: u32) -> Option<HeldPointer<'_>>
        requires inv { i < length self.now.stacks }
        requires plans { self.now.plans ≡ plans_in accepted.now }
        requires frame { IsSomeAnd (state.top_of self.now i) (IsSoundFrame accepted.now) }
        ensures { IsSomeAnd (state.top_of self.now i) (λ f. MatchOption result (number_of id f.plan.pointers ≡ None) (λ h. IsHeldPointer id f h.number (option_copied h.pointer))) }
    {
        match self.top(i) {
            Some(frame) => held_pointer_in(accepted, self.plans(), frame, id),
            None => unreachable!(),
        }
    }

    /// An equal state, with room for as many frames.
    pub fn copy(&self, alloc: Global) -> Result<Whole, NoMemory>
        ensures { IfOk result (λ w. w ≡ self.now) }
    {
        Ok(Whole {
            plans: plans_copied(alloc, &self.plans)?,
            stacks: stacks_copied(alloc, self.stacks.as_slice())?,
            statuses: self.statuses.copy(alloc)?,
            // The last, since it is what takes most to drop.
            memory: self.memory.copy(alloc)?,
        })
    }

    /// Exchanges a leaf of a variable of an invocation, which lies behind so many others and to which a path leads.
    pub fn exchange_single(
        &mut self,
        i: u32,
        root: Root,
        leaf: usize,
        path: &Ghost<Path>,
        value: &mut Single,
    )
        requires there { IsSome (load_of self.old.memory i (record { root = root; path = path.now.value })) }
        requires names { ∥ NamesRow self.old.memory i (record { root = root; path = path.now.value }) leaf 1 ∥₁ }
        requires may { ∥ MayStore self.old.memory i (record { root = root; path = path.now.value }) value.old ∥₁ }
        ensures after { self.new ≡ state.put_store i (Some (record { root = root; path = path.now.value }, value.old)) self.old }
        ensures handed { load_of self.old.memory i (record { root = root; path = path.now.value }) ≡ Some value.new }
    {
        let _stored = self.memory.exchange_single(i, root, leaf, path, value);
    }

    /// Exchanges the value of a register of one cell of the top frame of an invocation, by its number in the plan, and its mark.
    pub fn exchange_cell(&mut self, i: u32, number: usize, value: &mut Single, has: &mut bool)
        requires inv { i < length self.old.stacks }
        requires register { IsSomeAnd (state.top_of self.old i) (HasCells number 1) }
        ensures after { self.new ≡ state.on_frame i (with_value number (marked value.old has.old)) self.old }
        ensures handed { IsSomeAnd (state.top_of self.old i) (HoldsValue number (marked value.new has.new)) }
    {
        self.stacks[i as usize].exchange_single(number, value, has);
    }

    /// Exchanges the value of a register of the top frame of an invocation, by its number in the plan, and its mark.
    pub fn exchange_value(&mut self, i: u32, number: usize, value: &mut Row, has: &mut bool)
        requires inv { i < length self.old.stacks }
        requires register { IsSomeAnd (state.top_of self.old i) (HasCells number (length (leaves value.old))) }
        ensures after { self.new ≡ state.on_frame i (with_value number (marked value.old has.old)) self.old }
        ensures handed { IsSomeAnd (state.top_of self.old i) (HoldsValue number (marked value.new has.new)) }
    {
        self.stacks[i as usize].exchange_numbered(number, value, has);
    }

    /// Takes the value of a register of the top frame of an invocation away, by its number in the plan.
    pub fn clear_value(&mut self, i: u32, number: usize)
        requires inv { i < length self.old.stacks }
        requires register { IsSomeAnd (state.top_of self.old i) (λ f. number < length f.plan.values) }
        ensures { self.new ≡ state.on_frame i (with_value number None) self.old }
    {
        self.stacks[i as usize].clear_numbered(number);
    }

    /// Exchanges the pointer of a register of the top frame of an invocation, by its number in the plan.
    pub fn exchange_pointer(&mut self, i: u32, number: usize, pointer: &mut Option<Pointer>)
        requires inv { i < length self.old.stacks }
        requires register { IsSomeAnd (state.top_of self.old i) (HasPointer number) }
        ensures after { self.new ≡ state.on_frame i (with_pointer number pointer.old) self.old }
        ensures handed { IsSomeAnd (state.top_of self.old i) (HoldsPointer number pointer.new) }
    {
        self.stacks[i as usize].exchange_numbered_pointer(number, pointer);
    }

    /// Appends a debug event to those that the top frame of an invocation passed.
    pub fn append(&mut self, i: u32, event: DebugEvent) -> Result<(), NoMemory>
        requires inv { i < length self.old.stacks }
        requires frames { IsSome (state.top_of self.old i) }
        ensures ok { OnOk result (self.new ≡ state.on_frame i (state.append_event event) self.old) }
        ensures err { OnErr result (self.new ≡ self.old) }
    {
        self.stacks[i as usize].append(event)
    }

    /// Takes the last debug event of the top frame of an invocation away.
    pub fn drop_event(&mut self, i: u32)
        requires inv { i < length self.old.stacks }
        requires events { IsSomeAnd (state.top_of self.old i) (λ f. f.events ≢ []) }
        ensures { self.new ≡ state.on_frame i state.drop_event self.old }
    {
        let _event = self.stacks[i as usize].drop_event();
    }

    /// Closes the barrier at a word again, which all invocations have passed that aren't finished: these wait there.
    pub fn close_barrier(&mut self, word: u32)
        requires passed { list_all passed_or_finished self.old.statuses.list ≡ true }
        requires within { word < self.old.statuses.words }
        ensures { self.new ≡ state.close_barrier word self.old }
    {
        self.statuses.close(word);
    }
}
