//! Calls (SPIR-V 1.6 section 3.42.9, OpFunctionCall), and returns with a value (section 3.42.17, OpReturnValue).
ghost use Rattle.std.specs.Prelude.{◌≡◌, ℕ, IfOk, OnOk, Some};
ghost use Rattle.std.specs.List.{Contains};
ghost use Rattle.spv_base.specs.Answers.{Answers};
ghost use Rattle.spv_base.specs.declared.values.Value.{Value};
ghost use Rattle.spv_index.specs.Operands.{id_operand};
ghost use Rattle.spv_initial.specs.Start.{variables};
ghost use Rattle.spv_initial.specs.Variables.{targets_of};
ghost use Rattle.spv_mem.specs.Memory.{AreVariables};
ghost use Rattle.spv_operands.specs.Operands.{IsPlain, shown};
ghost use Rattle.spv_plans.specs.Plans.{functions_in, plan_of};
ghost use Rattle.spv_state.specs.Actions.{action_of};
ghost use Rattle.spv_state.specs.Roots.{IsRooted};
ghost use Rattle.spv_state.specs.Sound.{IsSoundFrame};
ghost use Rattle.spv_state.specs.Start.{frame_roots};
ghost use Rattle.spv_state.specs.State as state;
ghost use Rattle.spv_sites.specs.Calls as effects;
ghost use Rattle.spv_control.specs.Passing.{IsParameter, Passes, Suits, frame_due};
ghost use Rattle.spv_sites.specs.Planned.{IsDue, IsTaken, PlannedFits};
ghost use Rattle.spv_sites.specs.Sites as spec;

use crate::kept_calls::{call_is_kept, return_value_is_kept};
use spv_base::{Fail, NoMemory};
use spv_frame::{Frame, Place, Plan};
use spv_index::id_operand;
use spv_initial::local_variables;
use spv_mem::Locals;
use spv_operands::Operand;
use spv_plans::laws::{
    functions_have_their_plans, registers_are_apart, registers_have_types, results_have_registers,
};
use spv_sites::{Cause, Control, Effect, Entered, Gain, Site, given, owned};
use spv_state::Action;
use spv_types::rows::rows_fill_types;
use spv_values::Row;
use std::alloc::Global;
use std::rc::Rc;

/// The function that a call names.
fn callee(site: &Site) -> u32
    requires { (function : ℕ) × (id_operand site.now.inst 0 ≡ Some function) }
    ensures { result ≡ effects.callee site.now.inst }
{
    match id_operand(site.inst(), 0) {
        Some(function) => function,
        None => unreachable!(),
    }
}

/// Puts an argument in the register at a place.
fn put(
    alloc: Global,
    frame: &mut Frame,
    plan: &Plan,
    place: Place,
    operand: &Operand,
) -> Result<(), NoMemory>
    requires plan { frame.old.plan ≡ plan.now }
    requires plain { IsPlain operand.now }
    requires suits { Suits plan.now place (shown operand.now) }
    ensures { OnOk result ((id : ℕ) → IsParameter plan.now place id → frame.new ≡ state.with_register id (shown operand.now) frame.old) }
{
    match place {
        Place::Value(number) => {
            let Some(part) = operand.part() else {
                unreachable!();
            };
            let mut row = Row::of_part(alloc, &part)?;
            let mut has = true;
            frame.exchange(plan.slot(number), &mut row, &mut has);
        }
        Place::Pointer(number) => {
            let Some(reference) = operand.pointer(alloc) else {
                unreachable!();
            };
            let mut pointer = Some(owned(alloc, reference)?);
            frame.exchange_pointer(plan.pointer_slot(number), &mut pointer);
        }
    }
    Ok(())
}

/// The frame of a function as a call begins it. F4 where an argument has no value.
fn frame_of(site: &Site, plan: &Rc<Plan>, function: u32) -> Result<Frame, Fail<Cause>>
    requires plan { plan.now.value ≡ plan_of site.now.program.accepted function }
    requires known { ∥ Contains (functions_in site.now.program.accepted) function ∥₁ }
    requires passes { Passes site.now.program.accepted site.now.inst function }
    ensures due { Answers (frame_due site.now function) result }
    ensures sound { IfOk result (IsSoundFrame site.now.program.accepted) }
    ensures plan { IfOk result (λ frame. frame.plan ≡ plan_of site.now.program.accepted function) }
    ensures rooted { IfOk result (IsRooted site.now.program.accepted (state.frames_of site.now.state site.now.inv) (state.depth_of site.now.state site.now.inv)) }
{
    functions_have_their_plans();
    site.is_reached();
    registers_are_apart();
    registers_have_types();
    results_have_registers();
    rows_fill_types();
    let _insts = site.accepted().insts();
    let mut frame = Frame::new(site.alloc(), plan)?;
    let parameters = plan.parameters();
    for number in 0..parameters.len() {
        let operand = site.operand(number + 1)?;
        put(site.alloc(), &mut frame, plan, parameters[number], &operand)?;
    }
    Ok(frame)
}

/// The variables of a frame of a function, as they begin.
fn locals_of(site: &Site, function: u32) -> Result<Locals, NoMemory>
    ensures value { IfOk result (λ locals. locals ≡ frame_roots site.now.program.accepted function) }
    ensures are { IfOk result (AreVariables site.now.program.accepted.types (targets_of (variables site.now.program.accepted))) }
{
    let _insts = site.accepted().insts();
    let list = site.program().variables(function);
    local_variables(site.alloc(), site.accepted(), list)
}

/// OpFunctionCall: into a frame of the function, whose parameters have the arguments.
pub fn call(site: &Site) -> Result<Effect, Fail<Cause>>
    requires { action_of site.now.inst ≡ Action.Call }
    ensures due { (v : Value) → IsDue (spec.due site.now) v result }
    ensures fits { (v : Value) → PlannedFits site.now.program site.now.state site.now.inv site.now.inst v result }
    ensures taken { (v : Value) → IfOk result (λ e. IsTaken site.now.state site.now.inv e v) }
{
    call_is_kept(site);
    let _insts = site.accepted().insts();
    let function = callee(site);
    let plan = site.plan(function);
    let fresh = frame_of(site, plan, function)?;
    let frame = site.begun(fresh)?;
    let locals = locals_of(site, function)?;
    let entered = Box::new(site.alloc(), Entered { frame, locals })?;
    Ok(Effect {
        store: None,
        gain: Gain::Nothing,
        control: Control::Enter(entered),
    })
}

/// OpReturnValue: out of the function, which gives the value or the pointer.
pub fn return_value(site: &Site, row: &mut Row) -> Result<Effect, Fail<Cause>>
    requires { action_of site.now.inst ≡ Action.ReturnValue }
    ensures due { IsDue (spec.due site.now) row.new result }
    ensures fits { PlannedFits site.now.program site.now.state site.now.inv site.now.inst row.new result }
    ensures taken { IfOk result (λ e. IsTaken site.now.state site.now.inv e row.new) }
{
    return_value_is_kept(site);
    let operand = site.operand(0)?;
    let gain = given(site.alloc(), &operand, row)?;
    Ok(Effect {
        store: None,
        gain: Gain::Nothing,
        control: Control::Leave(gain),
    })
}
