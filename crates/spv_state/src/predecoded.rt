//! Instructions on values of one cell, with where these lie in the frames of a function, found once for a module: a run reads them without
//! a look-up.
ghost use Rattle.std.specs.Prelude.{◌≡◌, [], ℕ, IfOk, IfSome, Some};
ghost use Rattle.spv_base.specs.Entries.{reads};
ghost use Rattle.spv_frame.specs.Registers.{IsSlotOf};
ghost use Rattle.spv_operands.specs.Values.{pointer_to, value_of};
ghost use Rattle.spv_plans.specs.Plans.{plan_of, plans_in};
ghost use Rattle.spv_plans.specs.Registered.{HasNumber, IsOfFunction};
ghost use Rattle.spv_state.specs.Actions.{action_of};
ghost use Rattle.spv_state.specs.Events as events;
ghost use Rattle.spv_state.specs.Events.{captures_before};
ghost use Rattle.spv_state.specs.Predecoded.{ArePredecoded, IsNamedAt, IsPredecoded, IsReadAt, IsResultAt, IsShort};
ghost use Rattle.spv_state.specs.Sources.{IsName, IsSource, id_of, name_of, slot_of};

use crate::actions::Action;
use crate::captures::Capture;
use crate::registers::value_slot_of;
use spv_alu::BinaryOp;
use spv_base::{Inst, NoMemory, Root};
use spv_frame::{Frame, Plans, Slot};
use spv_index::{Keyed, id_operand};
use spv_operands::{constant, module_root};
use spv_plans::laws::plans_are_of_functions;
use spv_plans::plans_of;
use spv_results::Computation;
use spv_valid::{Meaning, Module};
use spv_values::Part;
use std::alloc::Global;

/// Where a register of one cell lies in the frames of a function, in 12 bytes: each predecoded instruction has up to three.
#[derive(Clone, Copy)]
pub struct CellSlot {
    pub id: u32,
    /// Of the register in the plan of the function.
    pub number: u32,
    /// Of its cell in a frame.
    pub start: u32,
}

/// Where the value lies that an id stands for in the frames of a function.
#[derive(Drop)]
pub enum Source {
    /// In a register of one cell.
    Register(CellSlot),
    /// Among the constants, under this id.
    Constant(u32),
}

/// Which variable an id stands for in the frames of a function.
#[derive(Drop)]
pub enum VariableName {
    /// One outside functions.
    Module { id: u32, root: Root },
    /// One of the function, by its id.
    Local(u32),
}

impl CellSlot {
    /// A slot of one cell, in this form.
    fn of(slot: &Slot) -> Option<CellSlot>
        ensures { IfSome result (λ s. slot_of s ≡ slot.now) }
    {
        if slot.len != 1 {
            return None;
        }
        Some(CellSlot {
            id: slot.id,
            number: u32::try_from(slot.number).ok()?,
            start: u32::try_from(slot.start).ok()?,
        })
    }

    /// The slot. Inlined: it is called once or more an event.
    #[inline(always)]
    pub fn slot(&self) -> Slot
        ensures { result ≡ slot_of self.now }
    {
        Slot {
            id: self.id,
            number: self.number as usize,
            start: self.start as usize,
            len: 1,
        }
    }
}

/// Where the register of a value with an id lies in the frames of a function, if they have it and it has one cell.
/// In constant time (measured, and said by no clause).
pub(crate) fn register_of(
    accepted: &Module,
    plans: &Plans,
    function: u32,
    id: u32,
) -> Option<CellSlot>
    requires plans { plans.now ≡ plans_in accepted.now }
    requires function { HasNumber accepted.now function }
    ensures slot { IfSome result (λ s. IsSlotOf (plan_of accepted.now function).values (slot_of s)) }
    ensures id { IfSome result (λ s. s.id ≡ id) }
{
    CellSlot::of(value_slot_of(accepted, plans, function, id)?)
}

impl Source {
    /// Where the value lies that an id stands for in the frames of a function, if that is a register of one cell or a constant.
    pub fn of(accepted: &Module, plans: &Plans, function: u32, id: u32) -> Option<Source>
        requires plans { plans.now ≡ plans_in accepted.now }
        requires function { HasNumber accepted.now function }
        ensures source { IfSome result (IsSource accepted.now function) }
        ensures id { IfSome result (λ s. id_of s ≡ id) }
    {
        match accepted.meaning(id)? {
            Meaning::Register(owner) if owner == function => {
                Some(Source::Register(register_of(accepted, plans, function, id)?))
            }
            Meaning::Constant => Some(Source::Constant(id)),
            _ => None,
        }
    }

    /// The value in a frame of the function, lent, if there is one: a register may hold none yet. Inlined: it is called once or more an
    /// event.
    #[inline(always)]
    pub fn part<'a>(&self, accepted: &'a Module, frame: &'a Frame) -> Option<Part<'a>>
        requires source { IsSource accepted.now frame.now.plan.function self.now }
        requires frame { IsOfFunction accepted.now frame.now.plan }
        ensures { IfSome result (λ v. (depth : ℕ) → value_of accepted.now frame.now depth (id_of self.now) ≡ Some v) }
    {
        match self {
            Source::Register(register) => frame.value(&register.slot()),
            Source::Constant(id) => constant(accepted, *id),
        }
    }
}

impl VariableName {
    /// Which variable an id stands for in the frames of a function, if it stands for one.
    pub fn of(accepted: &Module, function: u32, id: u32) -> Option<VariableName>
        ensures name { IfSome result (IsName accepted.now function) }
        ensures id { IfSome result (λ v. name_of v ≡ id) }
    {
        match accepted.meaning(id)? {
            Meaning::ModuleVariable => Some(VariableName::Module {
                id,
                root: module_root(accepted, id),
            }),
            Meaning::Variable(owner) if owner == function => Some(VariableName::Local(id)),
            _ => None,
        }
    }

    /// The variable, in a frame of the function at a depth. Nothing is looked up. Inlined: it is called once an event.
    #[inline(always)]
    pub fn root(&self, accepted: &Module, frame: &Frame, depth: u32) -> Root
        requires { IsName accepted.now frame.now.plan.function self.now }
        ensures { value_of accepted.now frame.now depth (name_of self.now) ≡ Some (pointer_to result) }
    {
        match self {
            VariableName::Module { root, .. } => *root,
            VariableName::Local(id) => Root::Local { depth, id: *id },
        }
    }
}

/// What an instruction does with values of one cell, and where they lie.
#[derive(Drop)]
pub enum Short {
    /// A binary operation, by its operands and its result.
    Binary {
        operation: BinaryOp,
        first: Source,
        second: Source,
        into: CellSlot,
    },
    /// OpLoad of a whole variable.
    Load {
        from: VariableName,
        into: CellSlot,
    },
    /// OpStore to a whole variable.
    Store {
        to: VariableName,
        object: Source,
    },
}

/// An instruction of a function on values of one cell, and the word of the executable behind it in its block, before which no debug
/// instruction stands.
#[derive(Drop)]
pub struct Predecoded {
    pub function: u32,
    pub next: u32,
    pub short: Short,
}

/// Where the operand with a number lies in the frames of a function.
fn read_at(accepted: &Module, plans: &Plans, function: u32, inst: &Inst, n: usize) -> Option<Source>
    requires plans { plans.now ≡ plans_in accepted.now }
    requires function { HasNumber accepted.now function }
    ensures { IfSome result (IsReadAt accepted.now function inst.now n) }
{
    Source::of(accepted, plans, function, id_operand(inst, n)?)
}

/// The variable that the operand with a number stands for in the frames of a function.
fn named_at(accepted: &Module, function: u32, inst: &Inst, n: usize) -> Option<VariableName>
    ensures { IfSome result (IsNamedAt accepted.now function inst.now n) }
{
    VariableName::of(accepted, function, id_operand(inst, n)?)
}

/// Where the result lies in the frames of a function.
fn result_at(accepted: &Module, plans: &Plans, function: u32, inst: &Inst) -> Option<CellSlot>
    requires plans { plans.now ≡ plans_in accepted.now }
    requires function { HasNumber accepted.now function }
    ensures { IfSome result (IsResultAt accepted.now function inst.now) }
{
    register_of(accepted, plans, function, inst.id)
}

/// An instruction that computes, where it is a binary operation.
fn binary(accepted: &Module, plans: &Plans, function: u32, inst: &Inst) -> Option<Short>
    requires plans { plans.now ≡ plans_in accepted.now }
    requires function { HasNumber accepted.now function }
    requires computes { action_of inst.now ≡ Action.Compute }
    ensures { IfSome result (IsShort accepted.now function inst.now) }
{
    let Computation::Binary(operation) = Computation::of(inst)? else {
        return None;
    };
    Some(Short::Binary {
        operation,
        first: read_at(accepted, plans, function, inst, 0)?,
        second: read_at(accepted, plans, function, inst, 1)?,
        into: result_at(accepted, plans, function, inst)?,
    })
}

/// OpLoad.
fn load(accepted: &Module, plans: &Plans, function: u32, inst: &Inst) -> Option<Short>
    requires plans { plans.now ≡ plans_in accepted.now }
    requires function { HasNumber accepted.now function }
    requires loads { action_of inst.now ≡ Action.Load }
    ensures { IfSome result (IsShort accepted.now function inst.now) }
{
    Some(Short::Load {
        from: named_at(accepted, function, inst, 0)?,
        into: result_at(accepted, plans, function, inst)?,
    })
}

/// OpStore.
fn store(accepted: &Module, plans: &Plans, function: u32, inst: &Inst) -> Option<Short>
    requires plans { plans.now ≡ plans_in accepted.now }
    requires function { HasNumber accepted.now function }
    requires stores { action_of inst.now ≡ Action.Store }
    ensures { IfSome result (IsShort accepted.now function inst.now) }
{
    Some(Short::Store {
        to: named_at(accepted, function, inst, 0)?,
        object: read_at(accepted, plans, function, inst, 1)?,
    })
}

/// An instruction, where it is one on values of one cell.
fn short_of(accepted: &Module, plans: &Plans, function: u32, inst: &Inst) -> Option<Short>
    requires plans { plans.now ≡ plans_in accepted.now }
    requires function { HasNumber accepted.now function }
    ensures { IfSome result (IsShort accepted.now function inst.now) }
{
    match Action::of(inst) {
        Action::Compute => binary(accepted, plans, function, inst),
        Action::Load => load(accepted, plans, function, inst),
        Action::Store => store(accepted, plans, function, inst),
        _ => None,
    }
}

/// The word of the executable behind the one at a word in its block, if no debug instruction stands between them.
fn next(accepted: &Module, captures: &Keyed<Vec<Capture>>, word: u32) -> Option<u32>
    requires { (pc : ℕ) → events.under captures.now pc ≡ captures_before accepted.now pc }
    ensures next { IfSome result (λ next. reads word accepted.now.flow.nexts ≡ Some (Some next)) }
    ensures silent { IfSome result (λ next. captures_before accepted.now next ≡ []) }
{
    if !accepted.flow().is_pc(word) {
        return None;
    }
    let next = accepted.next(word)?;
    match captures.get(next) {
        Some(_) => None,
        None => Some(next),
    }
}

/// An instruction of a function, predecoded.
fn predecoded_of(
    accepted: &Module,
    plans: &Plans,
    captures: &Keyed<Vec<Capture>>,
    function: u32,
    inst: &Inst,
) -> Option<Predecoded>
    requires plans { plans.now ≡ plans_in accepted.now }
    requires captures { (pc : ℕ) → events.under captures.now pc ≡ captures_before accepted.now pc }
    ensures { IfSome result (IsPredecoded accepted.now inst.now) }
{
    plans_are_of_functions();
    let _number = plans.number(function)?;
    Some(Predecoded {
        function,
        next: next(accepted, captures, inst.word)?,
        short: short_of(accepted, plans, function, inst)?,
    })
}

/// The instructions of a module, in its order, each predecoded where it is one on values of one cell. Each is looked at once.
pub(crate) fn predecode(
    alloc: Global,
    accepted: &Module,
    captures: &Keyed<Vec<Capture>>,
) -> Result<Vec<Option<Predecoded>>, NoMemory>
    requires { (pc : ℕ) → events.under captures.now pc ≡ captures_before accepted.now pc }
    ensures { IfOk result (λ list. ArePredecoded accepted.now list.items) }
{
    let plans = plans_of(alloc, accepted)?;
    let insts = accepted.insts();
    let standings = accepted.index().standings();
    let mut list = Vec::new(alloc);
    for (n, inst) in insts.iter().enumerate() {
        let function = standings[n].position.function;
        list.push(predecoded_of(accepted, &plans, captures, function, inst))?;
    }
    Ok(list)
}
