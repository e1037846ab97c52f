//! The state at the start of a run.
ghost use Rattle.std.specs.Prelude.{◌≡◌, ◌<◌, ◌≤◌, ◌++◌, [], ◌∷◌, ℕ, IfOk, OnOk, Some, length, map, replicate, slice_get};
ghost use Rattle.spv_frame.specs.Frames.{fresh};
ghost use Rattle.spv_frame.specs.Registers.{Planned};
ghost use Rattle.spv_initial.specs.Start.{local_roots, starting};
ghost use Rattle.spv_initial.specs.Variables.{AreDeclared, HaveTargets};
ghost use Rattle.spv_mem.specs.Memory.{Levels};
ghost use Rattle.spv_plans.specs.Plans.{plan_of, plans_in};
ghost use Rattle.spv_state.specs.Events.{IsReadable, passed};
ghost use Rattle.spv_state.specs.Program as program;
ghost use Rattle.spv_state.specs.Start as spec;

use crate::events::pass_events;
use crate::plans::plan_in;
use crate::runnable::Runnable;
use crate::whole::Whole;
use spv_base::NoMemory;
use spv_frame::{Frame, Plan, Plans, Stack};
use spv_initial::{Declared, local_variables, starting};
use spv_mem::Memory;
use spv_plans::laws::functions_have_their_plans;
use spv_plans::plans_of;
use spv_statuses::Statuses;
use spv_valid::Module;
use std::alloc::Global;
use std::rc::Rc;

/// One more than the word of the last instruction.
fn words_of(accepted: &Module) -> u32
    ensures { result ≡ program.words_of accepted.now }
{
    match accepted.insts().last() {
        Some(inst) => inst.word + 1,
        None => 0,
    }
}

/// Enters a frame with some variables for each of so many invocations.
fn enter_each(
    alloc: Global,
    accepted: &Module,
    list: &[Declared],
    memory: &mut Memory,
    count: u32,
) -> Result<(), NoMemory>
    requires count { length memory.old.locals ≡ count }
    requires types { memory.old.types ≡ accepted.now.types }
    requires are { ∥ AreDeclared accepted.now.types list.now ∥₁ }
    requires targets { ∥ HaveTargets memory.old.targets list.now ∥₁ }
    ensures { OnOk result (memory.new ≡ record memory.old { locals = map (λ (l : Levels). record l { list = l.list ++ local_roots accepted.now list.now ∷ [] }) memory.old.locals }) }
{
    for inv in 0..count {
        let locals = local_variables(alloc, accepted, list)?;
        memory.enter_locals(inv, locals)?;
    }
    Ok(())
}

/// The memory at the start of a run: each variable of the module, and for each invocation those of a frame of the entry function.
fn memory(alloc: Global, m: &Runnable) -> Result<Memory, NoMemory>
    ensures { IfOk result (λ memory. memory ≡ spec.begun m.now.accepted (starting m.now.accepted m.now.setup)) }
{
    let accepted = m.accepted();
    let _insts = accepted.insts();
    let list = m.variables(accepted.entry());
    let mut memory = starting(alloc, accepted, m.setup())?;
    enter_each(alloc, accepted, list, &mut memory, accepted.invocations())?;
    Ok(memory)
}

/// The plan of the entry function.
fn entry_plan<'a>(accepted: &Module, plans: &'a Plans) -> &'a Rc<Plan>
    requires { plans.now ≡ plans_in accepted.now }
    ensures { result.now.value ≡ plan_of accepted.now accepted.now.entry }
{
    let _insts = accepted.insts();
    plan_in(accepted, plans, accepted.entry())
}

/// The frame of the entry function, with a plan, as a run begins it.
fn frame(alloc: Global, m: &Runnable, plans: &Plans, plan: &Rc<Plan>) -> Result<Frame, NoMemory>
    requires plans { plans.now ≡ plans_in m.now.accepted }
    requires frame { IsReadable m.now.accepted (fresh plan.now.value) }
    ensures { IfOk result (λ frame. frame ≡ passed m.now.accepted 0 (fresh plan.now.value)) }
{
    let mut frame = Frame::new(alloc, plan)?;
    pass_events(alloc, m, plans, &mut frame, 0)?;
    Ok(frame)
}

/// The calls of an invocation at the start: one frame with a plan.
fn stack(
    alloc: Global,
    m: &Runnable,
    plans: &Plans,
    plan: &Rc<Plan>,
    room: u32,
) -> Result<Stack, NoMemory>
    requires room { 0 < room }
    requires plans { plans.now ≡ plans_in m.now.accepted }
    requires frame { IsReadable m.now.accepted (fresh plan.now.value) }
    ensures { IfOk result (λ stack. stack ≡ record { frames = passed m.now.accepted 0 (fresh plan.now.value) ∷ []; room = room }) }
{
    let mut stack = Stack::new(alloc, room)?;
    stack.give_back(frame(alloc, m, plans, plan)?);
    Ok(stack)
}

/// Those of so many invocations.
fn stacks(
    alloc: Global,
    m: &Runnable,
    plans: &Plans,
    plan: &Rc<Plan>,
    room: u32,
    count: u32,
) -> Result<Vec<Stack>, NoMemory>
    requires room { 0 < room }
    requires plans { plans.now ≡ plans_in m.now.accepted }
    requires frame { IsReadable m.now.accepted (fresh plan.now.value) }
    ensures { IfOk result (λ stacks. stacks.items ≡ replicate count (record { frames = passed m.now.accepted 0 (fresh plan.now.value) ∷ []; room = room })) }
{
    let mut stacks = Vec::with_capacity(alloc, count as usize)?;
    for _number in 0..count {
        stacks.push(stack(alloc, m, plans, plan, room)?)?;
    }
    Ok(stacks)
}

/// The state at the start of a run.
pub(crate) fn whole(alloc: Global, m: &Runnable) -> Result<Whole, NoMemory>
    ensures { IfOk result (λ whole. whole ≡ spec.start_of m.now) }
{
    functions_have_their_plans();
    let accepted = m.accepted();
    let _insts = accepted.insts();
    let count = accepted.invocations();
    let plans = plans_of(alloc, accepted)?;
    let plan = entry_plan(accepted, &plans);
    let stacks = stacks(alloc, m, &plans, plan, accepted.depth(), count)?;
    Ok(Whole {
        plans,
        stacks,
        statuses: Statuses::new(alloc, count, words_of(accepted))?,
        // The last, since it is what takes most to drop.
        memory: memory(alloc, m)?,
    })
}

/// The most cells that a register of a plan has.
fn most_cells(plan: &Plan) -> usize
    ensures { (k : ℕ) (r : ℕ × ℕ) → slice_get plan.now.values k ≡ Some r → r.1 ≤ result }
{
    let mut most: usize = 0;
    for number in 0..plan.value_count() {
        most = most.max(plan.slot(number).len);
    }
    most
}

/// The most cells that a register of any of some plans has.
pub(crate) fn most_cells_of(plans: &Plans) -> usize
    ensures { (n k : ℕ) (p : Planned) (r : ℕ × ℕ) → slice_get plans.now n ≡ Some p → slice_get p.values k ≡ Some r → r.1 ≤ result }
{
    let list = plans.list();
    let mut most: usize = 0;
    for plan in list {
        most = most.max(most_cells(plan));
    }
    most
}
