//! Instructions where runs have come to them, and their operands.
ghost use Rattle.std.specs.Prelude.{◌≡◌, ℕ, ◌<◌, IfOk, IfSome, IsSome, None, OnOk, Some, length, option_map, true};
ghost use Rattle.std.specs.List.{Contains};
ghost use Rattle.std.specs.Result.{result_map_both};
ghost use Rattle.spv_state.specs.Below.spv_plans.specs.Plans.{functions_in, plan_of};
ghost use Rattle.spv_index.specs.Definitions.{at};
ghost use Rattle.spv_sites.specs.Sites as spec;
ghost use Rattle.spv_sites.specs.Fits.{IsOfType};
ghost use Rattle.spv_sites.specs.Planned as planned;
ghost use Rattle.spv_sites.specs.Planned.{IsGained, gained};
ghost use Rattle.spv_sites.specs.Sites.{Asks, Finds, is_data_at};
ghost use Rattle.spv_state.specs.Events.{IsReadable, passed};
ghost use Rattle.spv_state.specs.Predecoded.{IsNamedAt, IsReadAt};
ghost use Rattle.spv_state.specs.Sound.{IsSound};
ghost use Rattle.spv_state.specs.State as state;
ghost use Rattle.spv_state.specs.State.{State};
ghost use Rattle.spv_operands.specs.Operands.{IsPlain, pointer_of, referred, shown};
ghost use Rattle.spv_operands.specs.Values.{pointer_to};
ghost use Rattle.spv_state.specs.Below.spv_results.specs.Operands.{IsOperand};

use crate::causes::Cause;
use crate::effects::{Gain, Taken};
use spv_base::{Fail, Inst, NoMemory, Pointer, Root};
use spv_effects::resize;
use spv_frame::{Frame, Plan};
use spv_index::id_operand;
use spv_mem::Memory;
use spv_operands::laws::{constants_are_meant, operands_have_shapes};
use spv_operands::{Operand, Reference, constant, operand as operand_by, operand_of};
use spv_state::{Runnable, Source, VariableName, Whole, pass_events, plan_in};
use spv_valid::Module;
use spv_values::{Part, Row};
use std::alloc::Global;
use std::marker::Model;
use std::rc::Rc;

/// An instruction that the top frame of an invocation has come to, in a sound state.
#[derive(Drop)]
pub struct Site<'a> {
    alloc: Global,
    m: &'a Runnable,
    w: &'a Whole,
    inv: u32,
    depth: u32,
    frame: &'a Frame,
    inst: &'a Inst,
}

impl<'a> Model for Site<'a> {
    ghost use Rattle.std.specs.Prelude.{◌≡◌};
    ghost use Rattle.std.specs.Coded.{codes};
    ghost use Rattle.spv_base.specs.contracts.values.Value as value;
    ghost use Rattle.spv_sites.specs.Sites.{IsSite, Site as Seen};
    ghost use Rattle.spv_state.specs.State.{depth_of};

    ghost Value = { Seen };

    ghost coded = { Prim.hlevel (codes, value.the_row.coded) };

    ghost view = { λ s. record { program = s.m.now; state = s.w.now; inv = s.inv; frame = s.frame.now; inst = s.inst.now } };

    ghost invariant = { λ s. (s.depth ≡ depth_of s.w.now s.inv)
        × ∥ IsSite (record { program = s.m.now; state = s.w.now; inv = s.inv; frame = s.frame.now; inst = s.inst.now }) ∥₁ };
}

/// A value that an operand stands for, which is no pointer.
#[derive(Drop)]
pub struct Datum<'a> {
    operand: Operand<'a>,
}

impl<'a> Model for Datum<'a> {
    ghost use Rattle.std.specs.Prelude.{◌≡◌, None};
    ghost use Rattle.spv_base.specs.contracts.values.Value.{the_row};
    ghost use Rattle.spv_base.specs.declared.values.Value.{Value as Whole};
    ghost use Rattle.spv_operands.specs.Operands.{IsPlain, pointer_of, shown};

    ghost Value = { Whole };

    ghost coded = { the_row.coded };

    ghost view = { λ d. shown d.operand };

    ghost invariant = { λ d. ∥ IsPlain d.operand × (pointer_of (shown d.operand) ≡ None) ∥₁ };
}

impl<'a> Datum<'a> {
    /// The value, lent.
    pub fn part(&self) -> Part<'_>
        ensures { result ≡ self.now }
    {
        match self.operand.part() {
            Some(part) => part,
            None => unreachable!(),
        }
    }
}

/// A pointer, owned. It takes memory where the pointer is lent and its path has more than eight indexes.
pub fn owned(alloc: Global, reference: Reference) -> Result<Pointer, NoMemory>
    ensures { IfOk result (λ pointer. pointer ≡ referred reference.entry) }
{
    match reference {
        Reference::Lent(pointer) => pointer.copy(alloc),
        Reference::Made(pointer) => Ok(pointer),
    }
}

/// Copies a value into a row. It takes memory only where the row never had room for as many cells.
pub fn copied(part: &Part, row: &mut Row) -> Result<(), NoMemory>
    ensures { OnOk result (row.new ≡ part.now) }
{
    resize(row, part.cells().len())?;
    spv_effects::copy(part, row);
    Ok(())
}

/// What an operand stands for: a value is copied into the row.
pub fn given(alloc: Global, operand: &Operand, row: &mut Row) -> Result<Gain, NoMemory>
    requires { IsPlain operand.now }
    ensures value { IfOk result (λ gain. gained gain row.new ≡ Some (shown operand.now)) }
    ensures taken { (s : State) (inv : ℕ) → IfOk result (λ gain. IsGained s inv None gain row.new) }
{
    match operand.part() {
        Some(part) => {
            copied(&part, row)?;
            Ok(Gain::Row)
        }
        None => match operand.pointer(alloc) {
            Some(reference) => {
                let pointer = owned(alloc, reference)?;
                Ok(Gain::Pointer(Box::new(alloc, pointer)?))
            }
            None => unreachable!(),
        },
    }
}

impl<'a> Site<'a> {
    /// The instruction that the top frame of an invocation stands at.
    pub fn of(
        alloc: Global,
        m: &'a Runnable,
        w: &'a Whole,
        inv: u32,
        frame: &'a Frame,
        inst: &'a Inst,
    ) -> Site<'a>
        requires inv { inv < length w.now.stacks }
        requires sound { IsSound m.now w.now }
        requires frame { state.top_of w.now inv ≡ Some frame.now }
        requires inst { at m.now.accepted.insts frame.now.pc ≡ Some inst.now }
        ensures { result ≡ record { program = m.now; state = w.now; inv = inv; frame = frame.now; inst = inst.now } }
    {
        let depth = w.depth(inv);
        Site {
            alloc,
            m,
            w,
            inv,
            depth,
            frame,
            inst,
        }
    }

    /// A fact, with nothing to run: the top frame stands at the instruction, in a sound state.
    pub fn is_reached(&self)
        ensures { ∥ spec.IsSite self.now ∥₁ }
    {
        let _inv = self.inv;
    }

    /// Where results find memory.
    pub fn alloc(&self) -> Global {
        self.alloc
    }

    /// The module.
    pub fn accepted(&self) -> &'a Module
        ensures { result.now ≡ self.now.program.accepted }
    {
        self.m.accepted()
    }

    /// The module, with its setup.
    pub fn program(&self) -> &'a Runnable
        ensures { result.now ≡ self.now.program }
    {
        self.m
    }

    /// The plan of a function of the module. In constant time (measured, and said by no clause).
    pub fn plan(&self, function: u32) -> &'a Rc<Plan>
        requires { ∥ Contains (functions_in self.now.program.accepted) function ∥₁ }
        ensures { result.now.value ≡ plan_of self.now.program.accepted function }
    {
        plan_in(self.m.accepted(), self.w.plans(), function)
    }

    /// The frame that a call of this instruction makes, above those of the invocation, behind the debug events that it passes first.
    pub fn begun(&self, mut frame: Frame) -> Result<Frame, NoMemory>
        requires { IsReadable self.now.program.accepted frame }
        ensures { IfOk result (λ begun. begun ≡ passed self.now.program.accepted (length (state.frames_of self.now.state self.now.inv)) frame) }
    {
        let depth = self.w.stack(self.inv).depth() as u32;
        pass_events(self.alloc, self.m, self.w.plans(), &mut frame, depth)?;
        Ok(frame)
    }

    /// The instruction.
    pub fn inst(&self) -> &'a Inst
        ensures { result.now ≡ self.now.inst }
    {
        self.inst
    }

    /// The variables.
    pub fn memory(&self) -> &'a Memory
        ensures { result.now ≡ self.now.state.memory }
    {
        self.w.memory()
    }

    /// The invocation.
    pub fn inv(&self) -> u32
        ensures { result ≡ self.now.inv }
    {
        self.inv
    }

    /// What the operand with a number stands for, if it stands for something, counted from 0 behind the result. Inlined, as
    /// `operand` is.
    #[inline(always)]
    fn found(&self, n: usize) -> Result<Option<Operand<'a>>, NoMemory>
        ensures value { IfOk result (λ o. option_map shown o ≡ spec.values self.now n) }
        ensures plain { IfOk result (λ o. IfSome o IsPlain) }
    {
        let accepted = self.accepted();
        operand_of(
            self.alloc,
            accepted,
            self.w.plans(),
            self.frame,
            self.depth,
            self.inst,
            n,
        )
    }

    /// What the operand with a number stands for. F4 where it has no value. Inlined: it is called more than once an event.
    #[inline(always)]
    pub fn operand(&self, n: usize) -> Result<Operand<'a>, Fail<Cause>>
        ensures value { Finds (spec.values self.now n) (result_map_both shown (λ e. e) result) }
        ensures plain { IfOk result IsPlain }
        ensures shape { IfOk result (λ o. spec.IsShaped self.now.program.accepted self.now.inst n (shown o)) }
    {
        operands_have_shapes();
        self.is_reached();
        let _insts = self.accepted().insts();
        match self.found(n)? {
            Some(operand) => Ok(operand),
            None => Err(Fail::Refused(Cause::NoValue)),
        }
    }

    /// True only where the operand with a number stands for something, as a constant does. In constant time (measured, and said by no clause).
    fn is_constant(&self, n: usize) -> bool
        ensures { result ≡ true → IsSome (spec.values self.now n) }
    {
        constants_are_meant();
        let accepted = self.accepted();
        let _insts = accepted.insts();
        match id_operand(self.inst, n) {
            Some(id) => constant(accepted, id).is_some(),
            None => false,
        }
    }

    /// Asks that the operand with a number stands for something. F4 where it has no value. A constant isn't read for it.
    pub fn ask(&self, n: usize) -> Result<(), Fail<Cause>>
        ensures { Asks (spec.values self.now n) result }
    {
        if self.is_constant(n) {
            return Ok(());
        }
        let _operand = self.operand(n)?;
        Ok(())
    }

    /// The value of the operand with a number, whose type is no pointer type. F4 where it has none. Inlined, as `operand`
    /// is.
    #[inline(always)]
    pub fn value(&self, n: usize) -> Result<Datum<'a>, Fail<Cause>>
        requires { is_data_at self.now.program.accepted self.now.inst n ≡ true }
        ensures value { Finds (spec.values self.now n) result }
        ensures shape { IfOk result (IsOperand self.now.program.accepted self.now.inst n) }
    {
        let _insts = self.accepted().insts();
        let operand = self.operand(n)?;
        Ok(Datum { operand })
    }

    /// The value of the operand with a number by where it lies, lent; none where a register holds none.
    #[inline(always)]
    pub fn read<'b>(&'b self, n: usize, source: &'b Source) -> Option<Part<'b>>
        requires lies { ∥ IsReadAt self.now.program.accepted self.now.frame.plan.function self.now.inst n source.now ∥₁ }
        requires data { is_data_at self.now.program.accepted self.now.inst n ≡ true }
        ensures value { IfSome result (λ v. spec.values self.now n ≡ Some v) }
        ensures shape { IfSome result (IsOperand self.now.program.accepted self.now.inst n) }
    {
        operands_have_shapes();
        self.is_reached();
        let _number = n;
        let accepted = self.accepted();
        let _insts = accepted.insts();
        source.part(accepted, self.frame)
    }

    /// The variable that the operand with a number stands for, by its name.
    #[inline(always)]
    pub fn variable(&self, n: usize, name: &VariableName) -> Root
        requires { ∥ IsNamedAt self.now.program.accepted self.now.frame.plan.function self.now.inst n name.now ∥₁ }
        ensures value { spec.values self.now n ≡ Some (pointer_to result) }
        ensures shape { spec.IsShaped self.now.program.accepted self.now.inst n (pointer_to result) }
    {
        operands_have_shapes();
        self.is_reached();
        let _number = n;
        let accepted = self.accepted();
        let _insts = accepted.insts();
        name.root(accepted, self.frame, self.depth)
    }

    /// What an id stands for, if it stands for something.
    fn found_by(&self, id: u32) -> Result<Option<Operand<'a>>, NoMemory>
        ensures value { IfOk result (λ o. option_map shown o ≡ spec.value_with self.now id) }
        ensures plain { IfOk result (λ o. IfSome o IsPlain) }
    {
        let accepted = self.accepted();
        operand_by(
            self.alloc,
            accepted,
            self.w.plans(),
            self.frame,
            self.depth,
            id,
        )
    }

    /// What an id stands for, a value or a pointer. F4 where it has none.
    pub fn operand_with(&self, id: u32) -> Result<Operand<'a>, Fail<Cause>>
        ensures value { Finds (spec.value_with self.now id) (result_map_both shown (λ e. e) result) }
        ensures plain { IfOk result IsPlain }
        ensures shape { IfOk result (λ o. IsOfType self.now.program.accepted id (shown o)) }
    {
        operands_have_shapes();
        self.is_reached();
        let _insts = self.accepted().insts();
        match self.found_by(id)? {
            Some(operand) => Ok(operand),
            None => Err(Fail::Refused(Cause::NoValue)),
        }
    }

    /// What an operand stands for, owned.
    pub fn taken(&self, operand: &Operand) -> Result<Taken, NoMemory>
        requires { IsPlain operand.now }
        ensures value { IfOk result (λ t. planned.taken t ≡ shown operand.now) }
        ensures plain { IfOk result planned.IsPlain }
    {
        match operand.part() {
            Some(part) => {
                let row = Row::of_part(self.alloc, &part)?;
                Ok(Taken::Value(row))
            }
            None => match operand.pointer(self.alloc) {
                Some(reference) => {
                    let pointer = owned(self.alloc, reference)?;
                    Ok(Taken::Pointer(pointer))
                }
                None => unreachable!(),
            },
        }
    }
}
